// The parts of the search for room: the words of a bucket, the visits that they lead to, and the moves back from a free slot.
#![tactic(auto)]

ghost use Rattle.std.specs.Prelude.{ℕ, ◌+◌, ◌*◌, ◌<◌, ◌≤◌, ◌≡◌, [], length};
ghost use Rattle.model.specs.Memory.{tag};
ghost use Rattle.model.specs.Hash.{Size, other_bucket};
ghost use Rattle.model.specs.Shape.{four};
ghost use Rattle.paths.specs.Buckets.{bucket_words, sound_free};
ghost use Rattle.paths.specs.Path.{BackFrom, room_at, room_from};

use model::{MoveRecord, NO_MOVE, Refusal};

// An entry of the visit queue: the bucket of a visit. What put it into the queue is told by its position.
pub type Entry = u16;

// Room, after so many visits: the first `count` records are the moves, the far end first, and `slot` is free after them. Four records and a
// count, no Vec: a call has no heap, and C's record of a plan has four.
#[derive(Clone, Copy)]
pub struct Found {
    pub visits: usize,
    pub count: usize,
    pub moves: [MoveRecord; 4],
    pub slot: usize,
}

// The bucket that a word in bucket b leads to. A bucket's number fits 16 bits: there are at most 2,048.
pub fn child(b: u32, w: u32, n: u32) -> Entry
    requires { Size n × (b < n) }
    ensures { result ≡ other_bucket n (tag w) b }
{
    hashing::other_of(b, w / 65536, n) as Entry
}

// All four words of bucket b are read before any is judged.
pub fn words_at(slots: &[u32], b: u32) -> [u32; 4]
    requires { b * 4 + 4 ≤ length slots.now }
    ensures { result ≡ bucket_words 4 slots.now b }
{
    let a = (b as usize) * 4;
    [slots[a], slots[a + 1], slots[a + 2], slots[a + 3]]
}

// The lowest free slot among a bucket's words, if there is one. Damage comes first: where a bucket has both, a free slot does not count.
// All four are judged by an eager fold: whether a word is 0 can't be foretold, and `any` branches on it.
pub fn free_among(words: [u32; 4], m: u32) -> Result<Option<usize>, Refusal>
    ensures { result ≡ sound_free m words }
{
    let bad = words
        .iter()
        .fold(false, |bad, &w| bad | runs::is_damaged(w, m));
    if bad {
        return Err(Refusal::Damaged);
    }
    Ok(words.iter().position(|&w| w == 0))
}

// Room in slot s of the first home bucket, b: one visit and no move.
pub fn room_at_home(b: u32, s: usize) -> Found
    requires { s < 4 }
    ensures { result ≡ room_at [] 0 (b * 4 + s) [] }
{
    Found {
        visits: 1,
        count: 0,
        moves: [NO_MOVE; 4],
        slot: (b as usize) * 4 + s,
    }
}

// Slot s of bucket b.
fn slot_in(b: Entry, s: usize) -> usize
    requires { s < 4 }
    ensures { result ≡ b * 4 + s }
{
    (b as usize) * 4 + s
}

// Room in slot s of the bucket at position v of the queue: the moves back to a home bucket.
pub fn path_back(queue: &[Entry; 682], slots: &[u32], v: usize, s: usize) -> Found
    requires { BackFrom slots.now queue.now v s }
    ensures { (n : ℕ) → result ≡ room_from four n slots.now queue.now v s }
{
    let mut moves = [NO_MOVE; 4];
    let mut count = 0usize;
    let mut at = v;
    let mut to = slot_in(queue[v], s);
    // Position q was put there by slot (q - 2) % 4 of position (q - 2) / 4: an entry needs no more than its bucket.
    for j in 0..4 {
        if at < 2 {
            break;
        }
        let by = (at - 2) % 4;
        at = (at - 2) / 4;
        let from = slot_in(queue[at], by);
        moves[j] = MoveRecord {
            from,
            tag: slots[from] / 65536,
            to,
        };
        to = from;
        count = j + 1;
    }
    Found {
        visits: v + 1,
        count,
        moves,
        slot: to,
    }
}
