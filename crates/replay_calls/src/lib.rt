// The calls as the replay program makes them: each with the line of its answer. The runs that a call stores to, the buffer and the position
// in it stay parameters of their own: a struct round a `&mut` would need a clause on its name in every contract.
#![tactic(auto)]

ghost use Rattle.std.specs.Prelude.{◌≡◌, ◌+◌, ◌≤◌, length};
ghost use Rattle.model.specs.Memory.{mem};
ghost use Rattle.model.specs.Seen.{seen};
ghost use Rattle.model.specs.Answers.{hand_back};
ghost use Rattle.model.specs.Calling.{grant, read, serve, set_animal, delete, evict};
ghost use Rattle.replay_rows.specs.Meaning.{permission};
ghost use Rattle.replay_calls.specs.Told.{Made, Told, Whole, answer_of};

use model::{Grant, Table};
use places::Hand;
use replay_rows::Turn;

// What a set line grants.
pub fn granted(animal: u64, p: u64, issued: u64, minute: u64) -> Grant
    ensures { result ≡ grant animal (permission p) issued minute }
{
    Grant {
        animal,
        permission: (p % 4294967296) as u32,
        issued,
        minute,
    }
}

// Read, with the line of its answer.
pub fn answer_read(
    table: &Table,
    animal: u64,
    limit: u64,
    minute: u64,
    out: &mut [u8],
    at: usize,
) -> usize
    requires { at + 384 ≤ length out.old }
    ensures { Told (answer_of (seen table.now) (read animal limit minute)) at out.old out.new result }
{
    let said = reading::read(table, animal, limit, minute);
    replay_answers::put_reading(out, at, said)
}

// Serve.
pub fn answer_serve(
    slots: &[u32],
    counters: &[u32],
    items: &mut [u64],
    animal: u64,
    limit: u64,
    minute: u64,
    out: &mut [u8],
    at: usize,
) -> usize
    requires { at + 384 ≤ length out.old }
    ensures { Whole (mem slots.now counters.now items.old) (serve animal limit minute)
        (mem slots.now counters.now items.new) at out.old out.new result }
{
    let said = reading::serve(slots, counters, items, animal, limit, minute);
    replay_answers::put_reading(out, at, said)
}

// Set: the whole call, or cut behind its first k stores.
pub fn answer_set(
    slots: &mut [u32],
    counters: &mut [u32],
    items: &mut [u64],
    g: Grant,
    cut: Option<u64>,
    out: &mut [u8],
    at: usize,
) -> usize
    requires { at + 384 ≤ length out.old }
    ensures { Made cut (mem slots.old counters.old items.old) (set_animal g)
        (mem slots.new counters.new items.new) at out.old out.new result }
{
    let said = match cut {
        None => setting::set(slots, counters, items, g),
        Some(k) => setting::set_cut(slots, counters, items, g, k),
    };
    replay_answers::put_setting(out, at, said)
}

// Delete, whole or cut.
pub fn answer_delete(
    slots: &mut [u32],
    counters: &mut [u32],
    items: &mut [u64],
    animal: u64,
    cut: Option<u64>,
    out: &mut [u8],
    at: usize,
) -> usize
    requires { at + 384 ≤ length out.old }
    ensures { Made cut (mem slots.old counters.old items.old) (delete animal)
        (mem slots.new counters.new items.new) at out.old out.new result }
{
    let said = match cut {
        None => deleting::delete(slots, counters, items, animal),
        Some(k) => deleting::delete_cut(slots, counters, items, animal, k),
    };
    replay_answers::put_deleting(out, at, said)
}

// Evict, whole or cut.
pub fn answer_evict(
    slots: &mut [u32],
    counters: &mut [u32],
    items: &mut [u64],
    hand: usize,
    cut: Option<u64>,
    out: &mut [u8],
    at: usize,
) -> Turn
    requires { at + 384 ≤ length out.old }
    ensures made { Made cut (mem slots.old counters.old items.old) (evict hand)
        (mem slots.new counters.new items.new) at out.old out.new result.next }
    ensures hand_value { result.hand ≡ hand_back hand (answer_of (mem slots.old counters.old items.old) (evict hand)) }
{
    let turned = match cut {
        None => evicting::evict(slots, counters, items, Hand { at: hand }),
        Some(k) => evicting::evict_cut(slots, counters, items, Hand { at: hand }, k),
    };
    let back = turned.hand.at;
    let next = replay_answers::put_evicting(out, at, turned.answer, back as u64);
    Turn { next, hand: back }
}
