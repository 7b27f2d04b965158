// Fresh: zero in every word of three lent runs.
#![tactic(auto)]

ghost use Rattle.model.specs.Memory.{mem};
ghost use Rattle.model.specs.Shape.{four};
ghost use Rattle.model.specs.Said.{said_starting};
ghost use Rattle.model.specs.Promised.{FreshAs};

use model::Refusal;

pub fn fresh(slots: &mut [u32], counters: &mut [u32], items: &mut [u64]) -> Result<(), Refusal>
    ensures { FreshAs four (mem slots.old counters.old items.old)
        (mem slots.new counters.new items.new) (said_starting result) }
{
    if !hashing::lengths_are_good(slots.len(), counters.len(), items.len()) {
        return Err(Refusal::Lengths);
    }
    slots.fill(0);
    counters.fill(0);
    items.fill(0);
    Ok(())
}
