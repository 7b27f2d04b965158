// The list: the live places in place order, 20 bytes each. The buffer and the position in it stay two parameters: see the crate buffer.
#![tactic(auto)]

ghost use Rattle.std.specs.Prelude.{◌≡◌, ◌++◌, ◌+◌, ◌*◌, ◌/◌, ◌<◌, ◌≤◌, length, drop};
ghost use Rattle.model.specs.Choice.{range};
ghost use Rattle.model.specs.Listing.{live_count, records};
ghost use Rattle.model.specs.Shape.{four};
ghost use Rattle.model.specs.Seen.{seen};
ghost use Rattle.buffer.specs.Put.{Put};
ghost use Rattle.listing.specs.List.{ListedAs, place_record};

use model::{Refusal, Table};

// How many places are live.
fn count_live(items: &[u64]) -> usize
    ensures { result ≡ live_count items.now (range 0 (length items.now / 4)) }
{
    (0..items.len() / 4)
        .map(|p| if items[4 * p] == 0 { 0 } else { 1 })
        .sum()
}

// The record of a live place from `at` on, and nothing for a vacant one; the position behind it.
fn put_place(items: &[u64], p: usize, buffer: &mut [u8], at: usize) -> usize
    requires { (4 * p + 2 < length items.now) × (at + length (place_record items.now p) ≤ length buffer.old) }
    ensures { Put (place_record items.now p) at buffer.old buffer.new result }
{
    let word = 4 * p;
    let animal = items[word];
    if animal == 0 {
        return at;
    }
    let permission = items[word + 1];
    let stamp = items[word + 2];
    let behind_animal = buffer::put_low::<8>(buffer, at, animal);
    let behind_permission = buffer::put_low::<4>(buffer, behind_animal, permission % 4294967296);
    buffer::put_low::<8>(buffer, behind_permission, stamp)
}

// The records of the live places, at the buffer's front.
fn put_places(items: &[u64], buffer: &mut [u8])
    requires { length (records items.now (range 0 (length items.now / 4))) ≤ length buffer.old }
    ensures { buffer.new ≡ records items.now (range 0 (length items.now / 4))
        ++ drop (length (records items.now (range 0 (length items.now / 4)))) buffer.old }
{
    let mut at = 0;
    for p in 0..items.len() / 4 {
        at = put_place(items, p, buffer, at);
    }
}

// The list: refusal 1 for lengths that are no table's, 9 for a buffer that is too short; else how many records it wrote.
pub fn list(table: &Table, buffer: &mut [u8]) -> Result<usize, Refusal>
    ensures { ListedAs four (seen table.now) buffer.old buffer.new result }
{
    if !hashing::lengths_are_good(table.slots.len(), table.counters.len(), table.items.len()) {
        return Err(Refusal::Lengths);
    }
    let n = count_live(table.items);
    if buffer.len() < 20 * n {
        return Err(Refusal::ShortBuffer);
    }
    put_places(table.items, buffer);
    Ok(n)
}
