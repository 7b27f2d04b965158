// What every call about an animal looks at: its home words, judged and compared once, and the slot of a word.
#![tactic(auto)]

ghost use Rattle.std.specs.Prelude.{◌≡◌, ◌++◌, ◌+◌, ◌*◌, ◌%◌, ◌<◌, ◌≤◌, length, get_or, eqb, true, unwrap_or};
ghost use Rattle.model.specs.Choice.{choose, first, range};
ghost use Rattle.model.specs.Seen.{seen};
ghost use Rattle.model.specs.Shape.{four, good_lengths, right_lengths};
ghost use Rattle.looking.specs.Look.{due, early, HomesIn, LooksHome, LooksUp};

use hashing::Homes;
use model::{Refusal, Table};

// Refusals 1, 2 and 3, in this order. The three lengths and no Table: most callers lend runs that they store to.
#[inline(always)]
pub fn refused_early(s: usize, v: usize, i: usize, animal: u64, bad: bool) -> Result<(), Refusal>
    ensures { result ≡ early (good_lengths four s v i) animal bad }
{
    if !hashing::lengths_are_good(s, v, i) {
        return Err(Refusal::Lengths);
    }
    if animal == 0 {
        return Err(Refusal::NoAnimal);
    }
    if bad {
        return Err(Refusal::Minutes);
    }
    Ok(())
}

// An animal's tag, buckets and counter in a table of good lengths: the callers have refused any other.
pub fn homes_in(table: &Table, animal: u64) -> Homes
    requires { right_lengths four (seen table.now) ≡ true }
    ensures { HomesIn four (seen table.now) animal result }
{
    let n = (table.slots.len() / 4) as u32;
    let v = table.counters.len() as u32;
    hashing::homes_of(animal, n, v)
}

// Busy: the counter is odd.
pub fn is_odd(counters: &[u32], c: u32) -> bool
    requires { c < length counters.now }
    ensures { result ≡ eqb (get_or counters.now c 0 % 2) 1 }
{
    counters[c as usize] % 2 == 1
}

// An animal's homes, and the words of their slots: refused if the animal is busy, or one of the words damaged.
#[derive(Clone, Copy)]
pub struct Home {
    pub homes: Homes,
    pub words: Result<[u32; 8], Refusal>,
}

// Refusals 8 and 4, in this order. In a table of good lengths: the callers have refused any other.
#[inline(always)]
pub fn home_of(table: &Table, animal: u64) -> Home
    requires { right_lengths four (seen table.now) ≡ true }
    ensures { LooksHome four (seen table.now) animal result }
{
    let homes = homes_in(table, animal);
    if is_odd(table.counters, homes.counter) {
        return Home {
            homes,
            words: Err(Refusal::Busy),
        };
    }
    let words = home_words::home_words_of(table.slots, homes.first, homes.second);
    let m = (table.items.len() / 4) as u32;
    if home_words::any_damaged(words, m) {
        return Home {
            homes,
            words: Err(Refusal::Damaged),
        };
    }
    Home {
        homes,
        words: Ok(words),
    }
}

// Refusals 1, 2, 3, 8 and 4, in this order. For a move, which does not ask whether the animal is held: so without the hit that `look_up`
// looks for.
pub fn refused_first(table: &Table, animal: u64, bad: bool) -> Result<(), Refusal>
    ensures { result ≡ due four (seen table.now) animal bad }
{
    refused_early(
        table.slots.len(),
        table.counters.len(),
        table.items.len(),
        animal,
        bad,
    )?;
    home_of(table, animal).words?;
    Ok(())
}

// What a call about an animal looks up: a refusal, or the word of the hit. The homes are known on a refusal too.
#[derive(Clone, Copy)]
pub struct Looked {
    pub homes: Homes,
    pub hit: Result<Option<u32>, Refusal>,
}

// In a table of good lengths: the callers have refused any other.
#[inline(always)]
pub fn look_up(table: &Table, animal: u64) -> Looked
    requires { right_lengths four (seen table.now) ≡ true }
    ensures { LooksUp four (seen table.now) animal result }
{
    let Home { homes, words } = home_of(table, animal);
    let hit = match words {
        Err(refusal) => Err(refusal),
        Ok(words) => {
            let sum = home_words::sum_with_tag(words, homes.tag);
            Ok(home_words::hit_word(table.items, words, homes.tag, animal, sum))
        }
    };
    Looked { homes, hit }
}

// Slot i if it has the word, else the other number.
fn slot_if(has: bool, i: usize, other: usize) -> usize
    ensures { result ≡ choose has i other }
{
    if has { i } else { other }
}

// The first slot of bucket b with the word w, else the other number. All four are compared and none is branched on: where a word stands can't
// be foretold. A `find` over the eight was tried: a delete mispredicts 1.0 branches for 0.05, which docs/SPEED.md has beyond its target.
fn slot_among(slots: &[u32], b: u32, w: u32, other: usize) -> usize
    requires { b * 4 + 4 ≤ length slots.now }
    ensures { result ≡ unwrap_or (first (λ i. eqb (get_or slots.now i 0) w) (range (b * 4) 4)) other }
{
    let at = (b as usize) * 4;
    let last = slot_if(slots[at + 3] == w, at + 3, other);
    let third = slot_if(slots[at + 2] == w, at + 2, last);
    let second = slot_if(slots[at + 1] == w, at + 1, third);
    slot_if(slots[at] == w, at, second)
}

// The first home slot with a word.
pub fn slot_of(slots: &[u32], near: u32, far: u32, w: u32) -> Option<usize>
    requires { (near * 4 + 4 ≤ length slots.now) × (far * 4 + 4 ≤ length slots.now) }
    ensures { result ≡ first (λ i. eqb (get_or slots.now i 0) w) (range (near * 4) 4 ++ range (far * 4) 4) }
{
    let nowhere = slots.len();
    let there = slot_among(slots, far, w, nowhere);
    let slot = slot_among(slots, near, w, there);
    (slot < nowhere).then_some(slot)
}
