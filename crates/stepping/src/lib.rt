// A set in steps: one whole move of a plan, or its final store, each made exactly if its conditions hold on the table that it finds.
#![tactic(auto)]

ghost use Rattle.std.specs.Prelude.{◌≡◌, List, ℕ, ◌^◌, ◌/◌, length, get_or};
ghost use Rattle.model.specs.Memory.{mem};
ghost use Rattle.model.specs.Shape.{Ways, four, shape_of};
ghost use Rattle.model.specs.Moves.{no_move};
ghost use Rattle.model.specs.Calling.{step_enter, step_move};
ghost use Rattle.model.specs.Calls.{move_at};
ghost use Rattle.model.specs.Said.{said_entry, said_move};
ghost use Rattle.model.specs.Promised.{Does, WholeAs};
ghost use Rattle.stepping.specs.Step.{EnterAsked, MoveAsked, entering_at};

use hashing::Homes;
use model::{Grant, MoveRecord, NO_MOVE, Refusal, Table};

// The test and the do of a move: it may be made by its two words, and then the word that stands in its source moves. It knows the ways
// by a shift only.
fn make_move(
    slots: &mut [u32],
    counters: &mut [u32],
    m: u32,
    shift: u32,
    v: MoveRecord,
    k: u64,
) -> Result<(), Refusal>
    requires { MoveAsked slots.old counters.old shift }
    ensures { (W : Ways) (t : List ℕ) → W.ways ≡ 2 ^ shift → length t / 4 ≡ m
        → Does (move_at (shape_of W (mem slots.old counters.old t)) (mem slots.old counters.old t) v) k
        (mem slots.old counters.old t) (mem slots.new counters.new t) (said_move result) }
{
    let long = slots.len();
    let n = (long >> shift) as u32;
    let w = runs::word_or(slots, v.from, 0);
    let d = runs::word_or(slots, v.to, 0);
    if !step_rules::may_move(long, n, m, shift, w, d, v) {
        return Err(Refusal::NoStep);
    }
    moves::move_one(slots, counters, n, shift, v, k);
    Ok(())
}

// One whole move, with set's inputs. It is made also where the animal is held by now: nothing ties a step to its plan.
pub fn step_move(
    slots: &mut [u32],
    counters: &mut [u32],
    items: &[u64],
    g: Grant,
    v: MoveRecord,
) -> Result<(), Refusal>
    ensures { WholeAs four (mem slots.old counters.old items.now) (step_move g v)
        (mem slots.new counters.new items.now) (said_move result) }
{
    let bad = ageing::is_bad_grant(g);
    let table = Table {
        slots,
        counters,
        items,
    };
    looking::refused_first(&table, g.animal, bad)?;
    let m = (items.len() / 4) as u32;
    make_move(slots, counters, m, 2, v, blocks::ALL_STORES)
}

// Move number j of a plan, which is four records by value. Behind them stands no move, and 12 is given in its turn.
pub fn step_planned(
    slots: &mut [u32],
    counters: &mut [u32],
    items: &[u64],
    g: Grant,
    plan: [MoveRecord; 4],
    j: usize,
) -> Result<(), Refusal>
    ensures { WholeAs four (mem slots.old counters.old items.now) (step_move g (get_or plan j no_move))
        (mem slots.new counters.new items.now) (said_move result) }
{
    let v = runs::word_or(&plan, j, NO_MOVE);
    step_move(slots, counters, items, g, v)
}

// The test and the do of the final store of an absent animal: it may be made by the place's number and the slot's word, and then comes
// the new entry.
fn make_entry(
    slots: &mut [u32],
    counters: &mut [u32],
    items: &mut [u64],
    g: Grant,
    homes: Homes,
    shift: u32,
    place: usize,
    slot: usize,
    k: u64,
) -> Result<(), Refusal>
    requires { EnterAsked (mem slots.old counters.old items.old) homes shift }
    ensures { Does (entering_at (2 ^ shift) (mem slots.old counters.old items.old) g homes place slot) k
        (mem slots.old counters.old items.old)
        (mem slots.new counters.new items.new) (said_entry result) }
{
    if items.len() / 4 <= place {
        return Err(Refusal::NoStep);
    }
    let number = items[4 * place];
    let w = runs::word_or(slots, slot, 0);
    let long = slots.len();
    if !step_rules::may_enter(long, shift, homes.first, homes.second, number, w, slot) {
        return Err(Refusal::NoStep);
    }
    let p = place as u32;
    let word = homes.tag * 65536 + p;
    let c = homes.counter as usize;
    blocks::enter_entry(slots, counters, items, c, p, slot, word, g, k);
    Ok(())
}

// The final store, with set's inputs. An animal that is held by now has its entry.
pub fn step_enter(
    slots: &mut [u32],
    counters: &mut [u32],
    items: &mut [u64],
    g: Grant,
    place: usize,
    slot: usize,
) -> Result<(), Refusal>
    ensures { WholeAs four (mem slots.old counters.old items.old) (step_enter g place slot)
        (mem slots.new counters.new items.new) (said_entry result) }
{
    let bad = ageing::is_bad_grant(g);
    looking::refused_early(slots.len(), counters.len(), items.len(), g.animal, bad)?;
    let table = Table {
        slots,
        counters,
        items,
    };
    let looked = looking::look_up(&table, g.animal);
    let homes = looked.homes;
    let k = blocks::ALL_STORES;
    match looked.hit? {
        Some(_) => Err(Refusal::NoStep),
        None => make_entry(slots, counters, items, g, homes, 2, place, slot, k),
    }
}
