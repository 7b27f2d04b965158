// The plain engine: a reader for the auditor that knows no hashing. It walks the places in order and answers from the item words alone.
#![tactic(auto)]

ghost use Rattle.std.specs.Prelude.{◌≡◌, false, ◌+◌, ◌*◌, ◌≤◌, length, Ok};
ghost use Rattle.model.specs.Memory.{permission, stamp};
ghost use Rattle.model.specs.Shape.{good_items};
ghost use Rattle.model.specs.Age.{bad_time, verdict};
ghost use Rattle.model.specs.Said.{said_reading};
ghost use Rattle.plain.specs.Plain.{plain_read};

use model::{Reading, Refusal};

// The items are whole places, 1 to 4,096 of them. hashing has the same test, which an engine that knows no hashing does not call.
fn is_good_length(words: usize) -> bool
    ensures { result ≡ good_items words }
{
    (words % 4 == 0) & (4..=16384).contains(&words)
}

// A place is judged as read judges its hit.
fn judged_at(items: &[u64], p: usize, limit: u64, minute: u64) -> Reading
    requires p_in_bounds { 4 * p + 4 ≤ length items.now }
    requires minute_value { bad_time limit minute ≡ false }
    ensures { said_reading (Ok result) ≡ verdict limit minute (permission items.now p) (stamp items.now p) }
{
    ageing::judged(items[4 * p + 1], items[4 * p + 2], limit, minute)
}

// What the items say of an animal, at the first place with its number.
pub fn read(items: &[u64], animal: u64, limit: u64, minute: u64) -> Result<Reading, Refusal>
    ensures { said_reading result ≡ plain_read items.now animal limit minute }
{
    if !is_good_length(items.len()) {
        return Err(Refusal::Lengths);
    }
    if animal == 0 {
        return Err(Refusal::NoAnimal);
    }
    if ageing::is_bad_time(limit, minute) {
        return Err(Refusal::Minutes);
    }
    match places::place_of(items, items.len() / 4, animal) {
        Some(p) => Ok(judged_at(items, p, limit, minute)),
        None => Ok(Reading::Absent),
    }
}
