// What evict is to do: CLOCK's victim, its refusals and its slot, found before any store.
#![tactic(auto)]

ghost use Rattle.model.specs.Seen.{seen};
ghost use Rattle.model.specs.Shape.{four};
ghost use Rattle.aiming.specs.Aiming.{Aimed, AimsAt, Handed, Turns};

use model::{Refusal, Table};
use places::{Hand, Victim};

// The victim's number and place, the places looked at, and the victim's counter and slot.
#[derive(Clone, Copy)]
pub struct Target {
    pub animal: u64,
    pub place: u32,
    pub looked: usize,
    pub counter: u32,
    pub slot: usize,
}

// Refusals 8 and 4 of a victim, then its slot. Requires good lengths and a place below M: the caller has refused any other.
fn aim_at(table: &Table, place: u32, looked: usize) -> Result<Target, Refusal>
    requires { Aimed four (seen table.now) place }
    ensures { AimsAt four (seen table.now) place looked result }
{
    let animal = runs::word_or(table.items, 4 * (place as usize), 0);
    let home = looking::home_of(table, animal);
    home.words?;
    let h = home.homes;
    let found = looking::slot_of(table.slots, h.first, h.second, h.tag * 65536 + place);
    let Some(slot) = found else {
        return Err(Refusal::Damaged);
    };
    Ok(Target {
        animal,
        place,
        looked,
        counter: h.counter,
        slot,
    })
}

// Refusal 7, then those of the victim. Where a place is live there is a victim, so that nobody found is nobody there, and refusal 10
// can't come. Requires good lengths and a hand below M: the caller has refused any other.
fn aim_scan(table: &Table, hand: Hand) -> Result<Target, Refusal>
    requires { Handed four (seen table.now) hand.at }
    ensures { Turns four (seen table.now) hand.at result }
{
    let m = table.items.len() / 4;
    match places::find_victim(table.items, m, hand) {
        Some(Victim { place, looked }) => aim_at(table, place as u32, looked),
        None => Err(Refusal::Absent),
    }
}

// Refusal 1, of a length or of the hand, then the others.
pub fn aim_turn(table: &Table, hand: Hand) -> Result<Target, Refusal>
    ensures { Turns four (seen table.now) hand.at result }
{
    let good = hashing::lengths_are_good(
        table.slots.len(),
        table.counters.len(),
        table.items.len(),
    );
    if !good {
        return Err(Refusal::Lengths);
    }
    if table.items.len() / 4 <= hand.at {
        return Err(Refusal::Lengths);
    }
    aim_scan(table, hand)
}
