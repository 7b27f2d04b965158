// Delete, whole and cut: what it is to do is known before any store, and then done.
#![tactic(auto)]

ghost use Rattle.std.specs.Prelude.{◌≡◌};
ghost use Rattle.model.specs.Memory.{mem};
ghost use Rattle.model.specs.Seen.{seen};
ghost use Rattle.model.specs.Shape.{four};
ghost use Rattle.model.specs.Calling.{delete};
ghost use Rattle.model.specs.Lent.{lent_call};
ghost use Rattle.model.specs.Said.{said_deleting};
ghost use Rattle.model.specs.Promised.{CutAs, WholeAs};
ghost use Rattle.deleting.specs.Removing.{removing};

use looking::Looked;
use model::{Refusal, Table};

// What delete is to do: the animal's counter, and the slot and the place of its hit.
#[derive(Clone, Copy)]
struct Removal {
    counter: u32,
    slot: usize,
    place: u32,
}

// What is looked up decides.
#[inline(always)]
fn removal_of(table: &Table, animal: u64) -> Result<Removal, Refusal>
    ensures { removing result ≡ lent_call four (seen table.now) (delete animal) }
{
    looking::refused_early(
        table.slots.len(),
        table.counters.len(),
        table.items.len(),
        animal,
        false,
    )?;
    let Looked { homes, hit } = looking::look_up(table, animal);
    let Some(word) = hit? else {
        return Err(Refusal::Absent);
    };
    let Some(slot) = looking::slot_of(table.slots, homes.first, homes.second, word) else {
        return Err(Refusal::Absent);
    };
    Ok(Removal {
        counter: homes.counter,
        slot,
        place: word % 65536,
    })
}

// Delete, of which only the first k stores are made. Put into delete too, where k is known.
#[inline(always)]
pub fn delete_cut(
    slots: &mut [u32],
    counters: &mut [u32],
    items: &mut [u64],
    animal: u64,
    k: u64,
) -> Result<(), Refusal>
    ensures { CutAs four (mem slots.old counters.old items.old) (delete animal) k
        (mem slots.new counters.new items.new) (said_deleting result) }
{
    let table = Table {
        slots: &*slots,
        counters: &*counters,
        items: &*items,
    };
    let Removal {
        counter,
        slot,
        place,
    } = removal_of(&table, animal)?;
    blocks::remove_entry(slots, counters, items, counter as usize, slot, place, k);
    Ok(())
}

// The whole of it.
pub fn delete(
    slots: &mut [u32],
    counters: &mut [u32],
    items: &mut [u64],
    animal: u64,
) -> Result<(), Refusal>
    ensures { WholeAs four (mem slots.old counters.old items.old) (delete animal)
        (mem slots.new counters.new items.new) (said_deleting result) }
{
    delete_cut(slots, counters, items, animal, blocks::ALL_STORES)
}
