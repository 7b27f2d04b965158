// The lines of a replay that cut a call behind its first k stores: k is the first number. The runs, the buffer and the position in it stay
// parameters of their own: a struct round a `&mut` would need a clause on its name in every contract.
#![tactic(auto, unfolding(replay_rows::specs::Meaning::meaning))]

ghost use Rattle.std.specs.Prelude.{ℕ, ◌+◌, ◌≤◌, length};
ghost use Rattle.model.specs.Memory.{mem};
ghost use Rattle.replay_rows.specs.World.{Replied, world};
ghost use Rattle.replay_rows.specs.Meaning.{meaning};
ghost use Rattle.replay_rows.specs.Rows.{Line, row_number};
ghost use Rattle.replay_rows.specs.declared.Row.TheVariants as row;

use replay_rows::Turn;

pub fn cut_set(
    numbers: &[u64; 8],
    slots: &mut [u32],
    counters: &mut [u32],
    items: &mut [u64],
    out: &mut [u8],
    at: usize,
) -> usize
    requires { at + 384 ≤ length out.old }
    ensures { (n h : ℕ) → Line row.CutSet n numbers.now (mem slots.old counters.old items.old) h
        (mem slots.new counters.new items.new) at out.old out.new result }
{
    let [k, a, b, c, d, ..] = *numbers;
    let g = replay_calls::granted(a, b, c, d);
    replay_calls::answer_set(slots, counters, items, g, Some(k), out, at)
}

pub fn cut_delete(
    numbers: &[u64; 8],
    slots: &mut [u32],
    counters: &mut [u32],
    items: &mut [u64],
    out: &mut [u8],
    at: usize,
) -> usize
    requires { at + 384 ≤ length out.old }
    ensures { (n h : ℕ) → Line row.CutDelete n numbers.now (mem slots.old counters.old items.old) h
        (mem slots.new counters.new items.new) at out.old out.new result }
{
    let [k, a, ..] = *numbers;
    replay_calls::answer_delete(slots, counters, items, a, Some(k), out, at)
}

// The hand that comes back is beside it.
pub fn cut_evict(
    numbers: &[u64; 8],
    slots: &mut [u32],
    counters: &mut [u32],
    items: &mut [u64],
    out: &mut [u8],
    at: usize,
    hand: usize,
) -> Turn
    requires { at + 384 ≤ length out.old }
    ensures { (n : ℕ) → Replied (meaning (row_number row.CutEvict) n numbers.now (world (mem slots.old counters.old items.old) hand))
        (mem slots.new counters.new items.new) at out.old out.new result }
{
    let [k, ..] = *numbers;
    replay_calls::answer_evict(slots, counters, items, hand, Some(k), out, at)
}
