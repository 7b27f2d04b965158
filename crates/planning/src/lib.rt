// Plan: what a set of an absent animal would do now. It reads, and stores nothing.
#![tactic(auto)]

ghost use Rattle.std.specs.Prelude.{◌≡◌};
ghost use Rattle.model.specs.Seen.{seen};
ghost use Rattle.model.specs.Shape.{four};
ghost use Rattle.model.specs.Calling.{plan_set};
ghost use Rattle.model.specs.Lent.{lent_call};
ghost use Rattle.model.specs.Said.{plan_of};
ghost use Rattle.vacancy.specs.Room.{Homed, planning_new};

use hashing::Homes;
use model::{Grant, Plan, Refusal, Table};

// Plan of an absent animal: the room that set would find.
fn plan_new(table: &Table, g: Grant, homes: Homes) -> Result<Plan, Refusal>
    requires { Homed four (seen table.now) g.animal homes }
    ensures { result ≡ plan_of (planning_new four (seen table.now) g.animal).answer }
{
    let room = vacancy::room_for(table, g, homes)?;
    let found = room.found;
    let moves = found.moves;
    Ok(Plan {
        moves,
        count: found.count,
        place: room.place as usize,
        slot: found.slot,
    })
}

// Plan. A held animal has no new entry to plan.
pub fn plan(table: &Table, g: Grant) -> Result<Plan, Refusal>
    ensures { result ≡ plan_of (lent_call four (seen table.now) (plan_set g)).answer }
{
    let bad = ageing::is_bad_grant(g);
    looking::refused_early(
        table.slots.len(),
        table.counters.len(),
        table.items.len(),
        g.animal,
        bad,
    )?;
    let looked = looking::look_up(table, g.animal);
    match looked.hit? {
        Some(_) => Err(Refusal::NoStep),
        None => plan_new(table, g, looked.homes),
    }
}
