// The lines of a replay that are a set in steps: a plan, one whole move, the final store. The runs that are stored to, the buffer and the
// position in it stay parameters of their own: a struct round a `&mut` would need a clause on its name in every contract.
#![tactic(auto, unfolding(replay_rows::specs::Meaning::meaning))]

ghost use Rattle.std.specs.Prelude.{◌≡◌, ℕ, ◌+◌, ◌≤◌, eqb, length};
ghost use Rattle.model.specs.Memory.{mem, tag};
ghost use Rattle.model.specs.Seen.{seen};
ghost use Rattle.replay_rows.specs.Rows.{Line};
ghost use Rattle.replay_rows.specs.declared.Row.TheVariants as row;

use model::{MoveRecord, Table};

// The tag of a line as a record holds it, for the word in the source: 65536, which is no word's tag, where the word has another. So a
// number above 32 bits is compared whole.
fn tag_for(word: u32, said: u64) -> u32
    ensures { eqb (tag word) result ≡ eqb (tag word) said }
{
    let stands = word / 65536;
    if stands as u64 == said {
        return stands;
    }
    65536
}

// Plan, with the line of its answer.
pub fn answer_plan(numbers: &[u64; 8], table: &Table, out: &mut [u8], at: usize) -> usize
    requires { at + 384 ≤ length out.old }
    ensures { (n h : ℕ) → Line row.Plan n numbers.now (seen table.now) h (seen table.now) at out.old out.new result }
{
    let [a, b, c, d, ..] = *numbers;
    let said = planning::plan(table, replay_calls::granted(a, b, c, d));
    replay_answers::put_plan(out, at, said)
}

// One whole move.
pub fn answer_move(
    numbers: &[u64; 8],
    slots: &mut [u32],
    counters: &mut [u32],
    items: &[u64],
    out: &mut [u8],
    at: usize,
) -> usize
    requires { at + 384 ≤ length out.old }
    ensures { (n h : ℕ) → Line row.Move n numbers.now (mem slots.old counters.old items.now) h
        (mem slots.new counters.new items.now) at out.old out.new result }
{
    let [from, told, to, animal, permission, issued, minute, _] = *numbers;
    let g = replay_calls::granted(animal, permission, issued, minute);
    let word = runs::word_or(slots, from as usize, 0);
    let v = MoveRecord {
        from: from as usize,
        tag: tag_for(word, told),
        to: to as usize,
    };
    let said = stepping::step_move(slots, counters, items, g, v);
    replay_answers::put_moved(out, at, said)
}

// The final store.
pub fn answer_enter(
    numbers: &[u64; 8],
    slots: &mut [u32],
    counters: &mut [u32],
    items: &mut [u64],
    out: &mut [u8],
    at: usize,
) -> usize
    requires { at + 384 ≤ length out.old }
    ensures { (n h : ℕ) → Line row.Enter n numbers.now (mem slots.old counters.old items.old) h
        (mem slots.new counters.new items.new) at out.old out.new result }
{
    let [place, slot, animal, permission, issued, minute, ..] = *numbers;
    let g = replay_calls::granted(animal, permission, issued, minute);
    let said = stepping::step_enter(slots, counters, items, g, place as usize, slot as usize);
    replay_answers::put_entered(out, at, said)
}
