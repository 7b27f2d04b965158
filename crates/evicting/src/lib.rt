// Evict, whole and cut: CLOCK's victim is found before any store; then what the hand passed is cleared, and the victim goes.
#![tactic(auto)]

ghost use Rattle.std.specs.Prelude.{List, [], ◌&&◌, ℕ, ◌+◌, ◌*◌, ◌<◌, ◌≤◌, ◌≡◌, length};
ghost use Rattle.model.specs.Memory.{mem, live, is_recent};
ghost use Rattle.model.specs.Shape.{four};
ghost use Rattle.model.specs.Clock.{prepend, passed_recent};
ghost use Rattle.blocks.specs.Made.{Made};
ghost use Rattle.aiming.specs.Aiming.{aiming, Readies, Ready};
ghost use Rattle.evicting.specs.Evict.{EvictCut, Evicted, TurnsAs, clear_stores, evict_stores};

use aiming::Target;
use model::{Refusal, Table};
use places::Hand;

// What evict gives back: its answer, and the hand.
#[derive(Clone, Copy)]
pub struct Turned {
    pub answer: Result<model::Evicted, Refusal>,
    pub hand: Hand,
}

// The clear of a place that the hand passes, under the budget.
fn clear_one(items: &mut [u64], p: usize, left: u64) -> u64
    requires { 4 * p + 3 < length items.old }
    ensures { (s c : List ℕ) → Made (clear_stores (prepend (live items.old p && is_recent items.old p) p [])) left
        (mem s c items.old) (mem s c items.new) result }
{
    let animal = items[4 * p];
    let recent = items[4 * p + 3];
    if (animal != 0) & (recent != 0) {
        return blocks::put(items, 4 * p + 3, 0, left);
    }
    left
}

// The clears of the next `count` places from the hand on. No place is passed twice, so that no clear hides another.
fn clear_passed(items: &mut [u64], m: usize, hand: Hand, count: usize, left: u64) -> u64
    requires { (hand.at < m) × (length items.old ≡ 4 * m) × (count ≤ m) }
    ensures { (s c : List ℕ) → Made (clear_stores (passed_recent m items.old count hand.at)) left
        (mem s c items.old) (mem s c items.new) result }
{
    let mut h = hand;
    let mut rest = left;
    for _passed in 0..count {
        rest = clear_one(items, h.at, rest);
        h = h.step(m);
    }
    rest
}

// The clears of the places that the hand passed before the victim, each once, then the delete of the victim. Requires what the look has
// shown of the hand and the victim.
fn take_away(
    slots: &mut [u32],
    counters: &mut [u32],
    items: &mut [u64],
    hand: Hand,
    t: Target,
    k: u64,
) -> u64
    requires { Ready (mem slots.old counters.old items.old) hand.at t }
    ensures { Made (evict_stores (mem slots.old counters.old items.old) hand.at t) k
        (mem slots.old counters.old items.old)
        (mem slots.new counters.new items.new) result }
{
    let m = items.len() / 4;
    let count = (t.looked - 1).min(m);
    let left = clear_passed(items, m, hand, count, k);
    let c = t.counter as usize;
    blocks::remove_entry(slots, counters, items, c, t.slot, t.place, left)
}

// The do, up to its k-th store. Requires what the look has shown of the hand and the victim.
fn carry_out(
    slots: &mut [u32],
    counters: &mut [u32],
    items: &mut [u64],
    hand: Hand,
    aim: Result<Target, Refusal>,
    k: u64,
) -> Turned
    requires { Readies (mem slots.old counters.old items.old) hand.at aim }
    ensures { TurnsAs (aiming (mem slots.old counters.old items.old) hand.at aim) hand.at k
        (mem slots.old counters.old items.old)
        (mem slots.new counters.new items.new) result }
{
    let m = items.len() / 4;
    match aim {
        Err(refusal) => {
            let answer = Err(refusal);
            Turned { answer, hand }
        }
        Ok(t) => {
            take_away(slots, counters, items, hand, t, k);
            let here = Hand {
                at: t.place as usize,
            };
            Turned {
                answer: Ok(model::Evicted {
                    victim: t.animal,
                    looked: t.looked,
                }),
                hand: here.step(m),
            }
        }
    }
}

// Evict, of which only the first k stores are made.
#[inline(always)]
pub fn evict_cut(
    slots: &mut [u32],
    counters: &mut [u32],
    items: &mut [u64],
    hand: Hand,
    k: u64,
) -> Turned
    ensures { EvictCut four (mem slots.old counters.old items.old) hand.at k
        (mem slots.new counters.new items.new) result }
{
    let aim = aiming::aim_turn(
        &Table {
            slots,
            counters,
            items,
        },
        hand,
    );
    carry_out(slots, counters, items, hand, aim, k)
}

// Evict: all of its stores.
pub fn evict(slots: &mut [u32], counters: &mut [u32], items: &mut [u64], hand: Hand) -> Turned
    ensures { Evicted four (mem slots.old counters.old items.old) hand.at
        (mem slots.new counters.new items.new) result }
{
    evict_cut(slots, counters, items, hand, blocks::ALL_STORES)
}
