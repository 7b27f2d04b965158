// Judging a memory dump: wish 5's eight conditions in turn. The first that is broken is told, with the lowest number that breaks it.
#![tactic(auto)]

ghost use Rattle.std.specs.Prelude.{◌≡◌, Some, None, Ok, Err};
ghost use Rattle.model.specs.Seen.{seen};
ghost use Rattle.model.specs.Shape.{four};
ghost use Rattle.judgement.specs.Verdict.{judgement};
ghost use Rattle.judgement.specs.Said.{said};
ghost use Rattle.judging.specs.Judging.{unless};

use judgement::{Broken, Condition};
use model::Table;

// A number that breaks a condition is a no.
fn holds(breach: Option<usize>, condition: Condition) -> Result<(), Broken>
    ensures { result ≡ unless breach condition }
{
    match breach {
        Some(at) => Err(Broken { condition, at }),
        None => Ok(()),
    }
}

// The verdict on any three runs.
pub fn judge(table: &Table) -> Result<(), Broken>
    ensures { said result ≡ judgement four (seen table.now) }
{
    let places = table.items.len() / 4;
    let shape = inspecting::misshapen_run(
        table.slots.len(),
        table.counters.len(),
        table.items.len(),
    );
    holds(shape, Condition::Lengths)?;
    holds(
        inspecting::damaged_slot(table.slots, places as u32),
        Condition::Damage,
    )?;
    holds(inspecting::uneven_counter(table.counters), Condition::Odd)?;
    holds(pointing::stray_slot(table), Condition::Stray)?;
    holds(pointing::unsought_place(table), Condition::Unsought)?;
    holds(pointing::doubled_place(table), Condition::Doubled)?;
    holds(inspecting::wide_place(table.items), Condition::Wide)?;
    holds(inspecting::unswept_place(table.items), Condition::Unswept)
}
