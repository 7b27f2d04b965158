// Where an absent animal would go: the lowest vacant place, and the room that the search finds. Set's look, and plan's.
#![tactic(auto)]

ghost use Rattle.model.specs.Seen.{seen};
ghost use Rattle.model.specs.Shape.{four};
ghost use Rattle.vacancy.specs.Room.{Homed, RoomIs};

use hashing::Homes;
use model::{Grant, Refusal, Table};
use paths::Found;

// The vacant place that a new entry goes to, and the moves before it.
#[derive(Clone, Copy)]
pub struct Room {
    pub place: u32,
    pub found: Found,
}

// The look: the lowest vacant place, then the search.
pub fn room_for(table: &Table, g: Grant, homes: Homes) -> Result<Room, Refusal>
    requires { Homed four (seen table.now) g.animal homes }
    ensures { RoomIs four (seen table.now) g homes result }
{
    let m = table.items.len() / 4;
    let n = (table.slots.len() / 4) as u32;
    let place = places::vacant_place(table.items, m).ok_or(Refusal::NoPlace)?;
    let found = searching::search(table.slots, n, m as u32, homes.first, homes.second)?;
    Ok(Room {
        place: place as u32,
        found,
    })
}
