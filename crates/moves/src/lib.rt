// The moves of a path, far end first, under a budget. The ways of a table come in as a shift: it has 2^shift slots a bucket.
#![tactic(auto)]

ghost use Rattle.std.specs.Prelude.{◌≡◌, List, ℕ, ◌^◌, length};
ghost use Rattle.model.specs.Memory.{mem};
ghost use Rattle.model.specs.Shape.{Ways, shape};
ghost use Rattle.model.specs.Stores.{stores, stores_of};
ghost use Rattle.model.specs.Moves.{as_move, as_moves};
ghost use Rattle.model.specs.Calls.{move_block, move_blocks};
ghost use Rattle.blocks.specs.Made.{Made};
ghost use Rattle.moves.specs.Moves.{Movable, MovesIn};

use model::MoveRecord;

// One move, of the word that stands in the source now, under the counter of that entry.
pub fn move_one(
    slots: &mut [u32],
    counters: &mut [u32],
    n: u32,
    shift: u32,
    m: MoveRecord,
    left: u64,
) -> u64
    requires { Movable n (length counters.old) shift m.from }
    ensures { (W : Ways) (p : ℕ) (t : List ℕ) → W.ways ≡ 2 ^ shift
        → Made (stores_of (move_block (shape W n (length counters.old) p) slots.old (as_move m))) left
        (mem slots.old counters.old t) (mem slots.new counters.new t) result }
{
    let w = runs::word_or(slots, m.from, 0);
    let b = (m.from >> shift) as u32;
    let v = counters.len() as u32;
    let c = hashing::counter_at(b, w / 65536, n, v);
    blocks::move_entry(slots, counters, c as usize, m.from, m.to, w, left)
}

// The moves, the far end first.
pub fn make_moves(
    slots: &mut [u32],
    counters: &mut [u32],
    n: u32,
    shift: u32,
    moves: &[MoveRecord],
    left: u64,
) -> u64
    requires { MovesIn n (length counters.old) shift moves.now }
    ensures { (W : Ways) (p : ℕ) (t : List ℕ) → W.ways ≡ 2 ^ shift
        → Made (stores (move_blocks (shape W n (length counters.old) p) slots.old (as_moves moves.now))) left
        (mem slots.old counters.old t) (mem slots.new counters.new t) result }
{
    let mut l = left;
    for m in moves {
        l = move_one(slots, counters, n, shift, *m, l);
    }
    l
}
