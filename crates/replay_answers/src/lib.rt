// The table's answers as the replay program's lines: each function writes from `at` on and gives the position behind. The buffer and `at`
// stay two parameters: a struct round a `&mut` would need a clause on its name in every contract.
#![tactic(auto)]

ghost use Rattle.std.specs.Prelude.{◌≡◌, ◌+◌, ◌*◌, ◌≤◌, IfOk, length, take};
ghost use Rattle.buffer.specs.Put.{Put};
ghost use Rattle.model.specs.Seen.{seen};
ghost use Rattle.model.specs.Answers.{deleted, entry_made, listed, move_made, planned, refused, started};
ghost use Rattle.model.specs.Said.{said_with, read_as, stored_as, planned_as, evicted_as, listed_as};
ghost use Rattle.judgement.specs.Said.{said_with as judged_with};
ghost use Rattle.replay_answers.specs.Text.{text, done_line, reason, not_understood, dump, judged, poke_told};

use judgement::Breach;
use model::{Evicted, Numbered, Plan, Reading, Stored, Table};

// Of what refuses, its number.
pub fn put_refused<E: Numbered>(buffer: &mut [u8], at: usize, refusal: E) -> usize
    requires { at + 384 ≤ length buffer.old }
    ensures { Put (text (refused (E.number refusal))) at buffer.old buffer.new result × (result ≤ at + 384) }
{
    replay_print::put_told(buffer, at, b"refused", &[refusal.number()])
}

// An answer that is only that something is done: its word.
fn put_done<E: Numbered>(buffer: &mut [u8], at: usize, word: &[u8], said: Result<(), E>) -> usize
    requires { (at + 384 ≤ length buffer.old) × (length word.now ≤ 383) }
    ensures { Put (done_line E.number word.now said) at buffer.old buffer.new result × (result ≤ at + 384) }
{
    match said {
        Ok(()) => replay_print::put_line(buffer, at, word),
        Err(refusal) => put_refused(buffer, at, refusal),
    }
}

pub fn put_reading<E: Numbered>(buffer: &mut [u8], at: usize, said: Result<Reading, E>) -> usize
    requires { at + 384 ≤ length buffer.old }
    ensures { Put (text (said_with E.number read_as said)) at buffer.old buffer.new result × (result ≤ at + 384) }
{
    match said {
        Ok(Reading::Absent) => replay_print::put_line(buffer, at, b"absent"),
        Ok(Reading::Fresh { permission, left }) => {
            let behind = replay_print::put_numbered(buffer, at, b"fresh", permission as u64);
            replay_print::put_signed_line(buffer, behind, b"", left)
        }
        Ok(Reading::Old { left }) => replay_print::put_signed_line(buffer, at, b"old", left),
        Ok(Reading::Ahead) => replay_print::put_line(buffer, at, b"ahead"),
        Err(refusal) => put_refused(buffer, at, refusal),
    }
}

pub fn put_setting<E: Numbered>(buffer: &mut [u8], at: usize, said: Result<Stored, E>) -> usize
    requires { at + 384 ≤ length buffer.old }
    ensures { Put (text (said_with E.number stored_as said)) at buffer.old buffer.new result × (result ≤ at + 384) }
{
    match said {
        Ok(Stored { visits, moves }) => {
            let numbers = [visits as u64, moves as u64];
            replay_print::put_told(buffer, at, b"stored", &numbers)
        }
        Err(refusal) => put_refused(buffer, at, refusal),
    }
}

// A plan's line: the place and the slot, and then the numbers of its moves.
fn put_planned(buffer: &mut [u8], at: usize, plan: Plan) -> usize
    requires { (at + 384 ≤ length buffer.old) × (plan.count ≤ 4) }
    ensures { Put (text (planned (take plan.count plan.moves) plan.place plan.slot)) at buffer.old buffer.new result × (result ≤ at + 384) }
{
    let [a, b, c, d] = plan.moves;
    let numbers = [
        plan.place as u64,
        plan.slot as u64,
        a.from as u64,
        a.tag as u64,
        a.to as u64,
        b.from as u64,
        b.tag as u64,
        b.to as u64,
        c.from as u64,
        c.tag as u64,
        c.to as u64,
        d.from as u64,
        d.tag as u64,
        d.to as u64,
    ];
    let end = 2 + 3 * plan.count;
    replay_print::put_told(buffer, at, b"planned", &numbers[..end])
}

pub fn put_plan<E: Numbered>(buffer: &mut [u8], at: usize, said: Result<Plan, E>) -> usize
    requires { (at + 384 ≤ length buffer.old) × IfOk said (λ plan. plan.count ≤ 4) }
    ensures { Put (text (said_with E.number planned_as said)) at buffer.old buffer.new result × (result ≤ at + 384) }
{
    match said {
        Ok(plan) => put_planned(buffer, at, plan),
        Err(refusal) => put_refused(buffer, at, refusal),
    }
}

// One whole move.
pub fn put_moved<E: Numbered>(buffer: &mut [u8], at: usize, said: Result<(), E>) -> usize
    requires { at + 384 ≤ length buffer.old }
    ensures { Put (text (said_with E.number (λ _. move_made) said)) at buffer.old buffer.new result × (result ≤ at + 384) }
{
    put_done(buffer, at, b"moved", said)
}

// The final store.
pub fn put_entered<E: Numbered>(buffer: &mut [u8], at: usize, said: Result<(), E>) -> usize
    requires { at + 384 ≤ length buffer.old }
    ensures { Put (text (said_with E.number (λ _. entry_made) said)) at buffer.old buffer.new result × (result ≤ at + 384) }
{
    put_done(buffer, at, b"entered", said)
}

pub fn put_deleting<E: Numbered>(buffer: &mut [u8], at: usize, said: Result<(), E>) -> usize
    requires { at + 384 ≤ length buffer.old }
    ensures { Put (text (said_with E.number (λ _. deleted) said)) at buffer.old buffer.new result × (result ≤ at + 384) }
{
    put_done(buffer, at, b"deleted", said)
}

// The hand is the one that came back.
pub fn put_evicting<E: Numbered>(
    buffer: &mut [u8],
    at: usize,
    said: Result<Evicted, E>,
    hand: u64,
) -> usize
    requires { at + 384 ≤ length buffer.old }
    ensures { Put (text (said_with E.number (evicted_as hand) said)) at buffer.old buffer.new result × (result ≤ at + 384) }
{
    match said {
        Ok(Evicted { victim, looked }) => {
            let numbers = [victim, looked as u64, hand];
            replay_print::put_told(buffer, at, b"evicted", &numbers)
        }
        Err(refusal) => put_refused(buffer, at, refusal),
    }
}

pub fn put_starting<E: Numbered>(buffer: &mut [u8], at: usize, said: Result<(), E>) -> usize
    requires { at + 384 ≤ length buffer.old }
    ensures { Put (text (said_with E.number (λ _. started) said)) at buffer.old buffer.new result × (result ≤ at + 384) }
{
    put_done(buffer, at, b"fresh", said)
}

// A list's line and its records: 41 bytes for each 20.
fn put_listed(buffer: &mut [u8], at: usize, n: usize, records: &[u8]) -> usize
    requires n_in_bounds { 20 * n ≤ length records.now }
    requires records_in_bounds { at + 384 + 3 * length records.now ≤ length buffer.old }
    ensures { Put (text (listed n (take (20 * n) records.now))) at buffer.old buffer.new result
        × (result ≤ at + 384 + 3 * length records.now) }
{
    let numbers = [n as u64];
    let behind = replay_print::put_told(buffer, at, b"listed", &numbers);
    let end = 20 * n;
    replay_print::put_records(buffer, behind, n, &records[..end])
}

// The list's line and its records.
pub fn put_listing<E: Numbered>(
    buffer: &mut [u8],
    at: usize,
    said: Result<usize, E>,
    records: &[u8],
) -> usize
    requires counted { IfOk said (λ n. 20 * n ≤ length records.now) }
    requires records_in_bounds { at + 384 + 3 * length records.now ≤ length buffer.old }
    ensures { Put (text (said_with E.number (listed_as records.now) said)) at buffer.old buffer.new result
        × (result ≤ at + 384 + 3 * length records.now) }
{
    match said {
        Ok(n) => put_listed(buffer, at, n, records),
        Err(refusal) => put_refused(buffer, at, refusal),
    }
}

#[tactic(auto, unfolding(crate::specs::Text::reason))]
fn words_of(why: u64) -> &'static [u8]
    ensures { (result.now ≡ reason why) × (length result.now ≤ 16) }
{
    match why {
        0 => b"unknown word",
        1 => b"too few numbers",
        2 => b"too many numbers",
        _ => b"number too large",
    }
}

// Of the reason, its number: above 3 it is told as 3.
pub fn put_not_understood<W: Numbered>(buffer: &mut [u8], at: usize, line: u64, why: W) -> usize
    requires { at + 384 ≤ length buffer.old }
    ensures { Put (not_understood line (W.number why)) at buffer.old buffer.new result × (result ≤ at + 384) }
{
    let behind_number = replay_print::put_numbered(buffer, at, b"line", line);
    let behind = buffer::put_bytes(buffer, behind_number, b": not understood: ");
    replay_print::put_line(buffer, behind, words_of(why.number()))
}

// Every word of the three runs.
pub fn put_dump(buffer: &mut [u8], at: usize, table: &Table) -> usize
    requires { at + 384 + 21 * (length table.now.slots.now + length table.now.counters.now + length table.now.items.now) ≤ length buffer.old }
    ensures { Put (dump (seen table.now)) at buffer.old buffer.new result
        × (result ≤ at + 384 + 21 * (length table.now.slots.now + length table.now.counters.now + length table.now.items.now)) }
{
    let behind_slots = replay_print::put_told(buffer, at, b"slots", table.slots);
    let behind_counters = replay_print::put_told(buffer, behind_slots, b"counters", table.counters);
    replay_print::put_told(buffer, behind_counters, b"items", table.items)
}

// Whether a poke was made.
pub fn put_poked(buffer: &mut [u8], at: usize, poked: bool) -> usize
    requires { at + 384 ≤ length buffer.old }
    ensures { Put (poke_told poked) at buffer.old buffer.new result × (result ≤ at + 384) }
{
    if poked {
        replay_print::put_line(buffer, at, b"poked")
    } else {
        replay_print::put_line(buffer, at, b"no such word")
    }
}

// Yes, or no with the condition and the number that breaks it.
pub fn put_judgement<B: Breach>(buffer: &mut [u8], at: usize, said: Result<(), B>) -> usize
    requires { at + 384 ≤ length buffer.old }
    ensures { Put (judged (judged_with B.condition B.breaker said)) at buffer.old buffer.new result × (result ≤ at + 384) }
{
    match said {
        Ok(()) => replay_print::put_line(buffer, at, b"yes"),
        Err(broken) => {
            let numbers = [broken.condition(), broken.breaker()];
            replay_print::put_told(buffer, at, b"no", &numbers)
        }
    }
}
