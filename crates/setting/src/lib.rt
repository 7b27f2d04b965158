// Set, whole and cut: an update of a held animal, or the moves of the search and a new entry.
#![tactic(auto)]

ghost use Rattle.std.specs.Prelude.{◌≡◌, List, ℕ, ◌+◌, ◌*◌, ◌%◌, ◌^◌, ◌≤◌, length, Ok};
ghost use Rattle.model.specs.Memory.{mem, place};
ghost use Rattle.model.specs.Shape.{Ways, four};
ghost use Rattle.model.specs.Calling.{set_animal};
ghost use Rattle.model.specs.Calls.{set_held};
ghost use Rattle.model.specs.Said.{said_setting};
ghost use Rattle.model.specs.Promised.{CutAs, Does, WholeAs};
ghost use Rattle.vacancy.specs.Room.{Enterable, Homed, entering, entering_new};

use hashing::Homes;
use model::{Grant, Refusal, Stored, Table};
use vacancy::Room;

// The do: the moves, then the new entry. It knows the ways by a shift only. Requires what the look has shown.
fn enter_at(
    slots: &mut [u32],
    counters: &mut [u32],
    items: &mut [u64],
    g: Grant,
    homes: Homes,
    room: Room,
    shift: u32,
    k: u64,
) -> Stored
    requires { Enterable (mem slots.old counters.old items.old) homes room shift }
    ensures { (W : Ways) → W.ways ≡ 2 ^ shift
        → Does (entering W (mem slots.old counters.old items.old) g homes (Ok room)) k
        (mem slots.old counters.old items.old)
        (mem slots.new counters.new items.new) (said_setting (Ok result)) }
{
    let n = (slots.len() >> shift) as u32;
    let found = room.found;
    let moves = &found.moves[..found.count];
    let left = moves::make_moves(slots, counters, n, shift, moves, k);
    let word = homes.tag * 65536 + room.place;
    let c = homes.counter as usize;
    blocks::enter_entry(
        slots, counters, items, c, room.place, found.slot, word, g, left,
    );
    Stored {
        visits: found.visits,
        moves: found.count,
    }
}

// A new entry for an absent animal. Behind a call of its own: what it takes is laid out in memory only where it is called, and an update
// goes by.
#[inline(never)]
fn enter_new(
    slots: &mut [u32],
    counters: &mut [u32],
    items: &mut [u64],
    g: Grant,
    homes: Homes,
    k: u64,
) -> Result<Stored, Refusal>
    requires { Homed four (mem slots.old counters.old items.old) g.animal homes }
    ensures { Does (entering_new four (mem slots.old counters.old items.old) g) k
        (mem slots.old counters.old items.old)
        (mem slots.new counters.new items.new) (said_setting result) }
{
    let table = Table {
        slots,
        counters,
        items,
    };
    let room = vacancy::room_for(&table, g, homes)?;
    Ok(enter_at(slots, counters, items, g, homes, room, 2, k))
}

// Set of a held animal: no bucket is visited and nothing is moved. A late list is refused, and the place stays as it is.
fn set_held(
    counters: &mut [u32],
    items: &mut [u64],
    homes: Homes,
    w: u32,
    g: Grant,
    k: u64,
) -> Result<Stored, Refusal>
    requires { 4 * (w % 65536) + 4 ≤ length items.old }
    ensures { (s : List ℕ) → Does (set_held items.old homes.counter (place w) g) k
        (mem s counters.old items.old) (mem s counters.new items.new) (said_setting result) }
{
    let at = 4 * ((w % 65536) as usize);
    if ageing::is_late(items[at + 2], g) {
        return Err(Refusal::Late);
    }
    let c = homes.counter as usize;
    blocks::update_entry(counters, items, c, w % 65536, g, k);
    Ok(Stored {
        visits: 0,
        moves: 0,
    })
}

// Set, of which only the first k stores are made.
#[inline(always)]
pub fn set_cut(
    slots: &mut [u32],
    counters: &mut [u32],
    items: &mut [u64],
    g: Grant,
    k: u64,
) -> Result<Stored, Refusal>
    ensures { CutAs four (mem slots.old counters.old items.old) (set_animal g) k
        (mem slots.new counters.new items.new) (said_setting result) }
{
    let bad = ageing::is_bad_grant(g);
    looking::refused_early(slots.len(), counters.len(), items.len(), g.animal, bad)?;
    let table = Table {
        slots,
        counters,
        items,
    };
    let looked = looking::look_up(&table, g.animal);
    let homes = looked.homes;
    match looked.hit? {
        None => {
            // Copies for enter_new: they are laid out in memory only here, and an update goes by.
            let granted = g;
            let its = homes;
            enter_new(slots, counters, items, granted, its, k)
        }
        Some(w) => set_held(counters, items, homes, w, g, k),
    }
}

// Set: the cut form with a budget for all of its stores. The cut form is put into it whole: an update is then compiled in one piece.
pub fn set(
    slots: &mut [u32],
    counters: &mut [u32],
    items: &mut [u64],
    g: Grant,
) -> Result<Stored, Refusal>
    ensures { WholeAs four (mem slots.old counters.old items.old) (set_animal g)
        (mem slots.new counters.new items.new) (said_setting result) }
{
    set_cut(slots, counters, items, g, blocks::ALL_STORES)
}
