// The calls of a set in steps that a cabinet links: an object of its own in libboughladder.a. Set and plan share the search, and in one
// object it stays a call for both: a set of an absent animal took 10 to 13 ns longer so. C passes the three runs and the parts of a grant one by one.
#![tactic(auto)]

ghost use Rattle.std.specs.Prelude.{◌≡◌};
ghost use Rattle.model.specs.Memory.{mem};
ghost use Rattle.model.specs.Shape.{four};
ghost use Rattle.model.specs.Calling.{grant, plan_set, step_enter, step_move};
ghost use Rattle.model.specs.Lent.{lent_call};
ghost use Rattle.clothes.specs.Clothes.{number, plan_clothes};
ghost use Rattle.clothes.specs.Dressed.{WholeIn};

use clothes::BoughladderPlan;
use model::{Grant, MoveRecord, Table};

// What a set of an absent animal would do now: it stores nothing.
#[unsafe(no_mangle)]
pub extern "C" fn boughladder_plan(
    slots: &[u32],
    counters: &[u32],
    items: &[u64],
    animal: u64,
    permission: u32,
    issued: u64,
    minute: u64,
) -> BoughladderPlan
    ensures { result ≡ plan_clothes (lent_call four (mem slots.now counters.now items.now)
        (plan_set (grant animal permission issued minute))).answer }
{
    let granted = Grant {
        animal,
        permission,
        issued,
        minute,
    };
    let table = Table {
        slots,
        counters,
        items,
    };
    planning::plan(&table, granted).into()
}

// One whole move of a plan.
#[unsafe(no_mangle)]
pub extern "C" fn boughladder_step_move(
    slots: &mut [u32],
    counters: &mut [u32],
    items: &[u64],
    step: MoveRecord,
    animal: u64,
    permission: u32,
    issued: u64,
    minute: u64,
) -> u32
    ensures { WholeIn four number (mem slots.old counters.old items.now)
        (step_move (grant animal permission issued minute) step) (mem slots.new counters.new items.now) result }
{
    let granted = Grant {
        animal,
        permission,
        issued,
        minute,
    };
    clothes::dress_done(stepping::step_move(slots, counters, items, granted, step))
}

// The final store of a plan.
#[unsafe(no_mangle)]
pub extern "C" fn boughladder_step_enter(
    slots: &mut [u32],
    counters: &mut [u32],
    items: &mut [u64],
    place: usize,
    slot: usize,
    animal: u64,
    permission: u32,
    issued: u64,
    minute: u64,
) -> u32
    ensures { WholeIn four number (mem slots.old counters.old items.old)
        (step_enter (grant animal permission issued minute) place slot) (mem slots.new counters.new items.new) result }
{
    let granted = Grant {
        animal,
        permission,
        issued,
        minute,
    };
    clothes::dress_done(stepping::step_enter(slots, counters, items, granted, place, slot))
}
