// Stores under a budget: each block of document 01's stores, of which only the first `left` are made. The rest of the budget comes back.
#![tactic(auto)]

ghost use Rattle.std.specs.Prelude.{ℕ, ◌+◌, ◌*◌, ◌%◌, ◌^◌, List, slice_index};
ghost use Rattle.model.specs.Memory.{mem};
ghost use Rattle.model.specs.Stores.{stores_of, move, enter, update, remove};
ghost use Rattle.blocks.specs.Made.{Put, Made};

use model::Grant;

// As a budget, the largest number is the whole of it: more stores than any call makes.
pub const ALL_STORES: u64 = 18446744073709551615;

// One store: v at i of the run. An index outside of the run counts as a store and changes nothing, as in the definition.
pub fn put<T: Copy>(run: &mut [T], i: usize, v: T, left: u64) -> u64
    ensures { Put i v left run.old run.new result }
{
    if left == 0 {
        return 0;
    }
    if i < run.len() {
        run[i] = v;
    }
    left - 1
}

// One counter plus 1; counters wrap.
pub fn put_bump(counters: &mut [u32], c: usize, left: u64) -> u64
    ensures { Put c ((slice_index counters.old c + 1) % 2 ^ 32) left counters.old counters.new result }
{
    let next = counters.get(c).copied().unwrap_or(0).wrapping_add(1);
    put(counters, c, next, left)
}

// A move: the destination is written before the source is cleared, so that the entry always stands somewhere.
pub fn move_entry(
    slots: &mut [u32],
    counters: &mut [u32],
    c: usize,
    from: usize,
    to: usize,
    w: u32,
    left: u64,
) -> u64
    ensures { (t : List ℕ) → Made (stores_of (move c from to w)) left (mem slots.old counters.old t)
        (mem slots.new counters.new t) result }
{
    let l1 = put_bump(counters, c, left);
    let l2 = put(slots, to, w, l1);
    let l3 = put(slots, from, 0, l2);
    put_bump(counters, c, l3)
}

// A new entry: the place is filled before the slot word points to it.
pub fn enter_entry(
    slots: &mut [u32],
    counters: &mut [u32],
    items: &mut [u64],
    c: usize,
    p: u32,
    i: usize,
    w: u32,
    g: Grant,
    left: u64,
) -> u64
    ensures { Made (stores_of (enter c p i w g.animal g.permission g.issued)) left
        (mem slots.old counters.old items.old)
        (mem slots.new counters.new items.new) result }
{
    let at = 4 * (p as usize);
    let l1 = put_bump(counters, c, left);
    let l2 = put(items, at, g.animal, l1);
    let l3 = put(items, at + 1, g.permission as u64, l2);
    let l4 = put(items, at + 2, g.issued, l3);
    let l5 = put(items, at + 3, 1, l4);
    let l6 = put(slots, i, w, l5);
    put_bump(counters, c, l6)
}

// An update of a held animal: permission, stamp and recent.
pub fn update_entry(
    counters: &mut [u32],
    items: &mut [u64],
    c: usize,
    p: u32,
    g: Grant,
    left: u64,
) -> u64
    ensures { (s : List ℕ) → Made (stores_of (update c p g.permission g.issued)) left (mem s counters.old items.old)
        (mem s counters.new items.new) result }
{
    let at = 4 * (p as usize);
    let l1 = put_bump(counters, c, left);
    let l2 = put(items, at + 1, g.permission as u64, l1);
    let l3 = put(items, at + 2, g.issued, l2);
    let l4 = put(items, at + 3, 1, l3);
    put_bump(counters, c, l4)
}

// A delete: the slot is freed first, then the place.
pub fn remove_entry(
    slots: &mut [u32],
    counters: &mut [u32],
    items: &mut [u64],
    c: usize,
    i: usize,
    p: u32,
    left: u64,
) -> u64
    ensures { Made (stores_of (remove c i p)) left (mem slots.old counters.old items.old)
        (mem slots.new counters.new items.new) result }
{
    let at = 4 * (p as usize);
    let l1 = put_bump(counters, c, left);
    let l2 = put(slots, i, 0, l1);
    let l3 = put(items, at, 0, l2);
    let l4 = put(items, at + 1, 0, l3);
    let l5 = put(items, at + 2, 0, l4);
    let l6 = put(items, at + 3, 0, l5);
    put_bump(counters, c, l6)
}
