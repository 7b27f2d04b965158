// The breadth-first search for room: the buckets that it visits, and how it ends.
#![tactic(auto)]

ghost use Rattle.model.specs.Shape.{four};
ghost use Rattle.searching.specs.Search.{Asked, FoundIs};

use model::Refusal;
use paths::{Entry, Found};

// The positions up to here are at most three moves away. What those behind them lead to, 170 to 681, is too far.
const NEAR: usize = 170;

// The search along the visit list, from both home buckets: loops over visits and slots, left by a label, as document 01 names them.
fn search_list(slots: &[u32], n: u32, m: u32, first: u32, second: u32) -> Result<Found, Refusal>
    requires { Asked four slots.now n first second }
    ensures { FoundIs four n m slots.now first second result }
{
    let mut queue: [Entry; 682] = [0; 682];
    queue[0] = first as Entry;
    queue[1] = second as Entry;
    let mut found = Err(Refusal::NoRoom);
    // The queue is the visit list: level after level, as a bucket's four go behind those of the buckets before it.
    'search: for v in 0..682 {
        let b = queue[v] as u32;
        let words = paths::words_at(slots, b);
        // Damage comes first: where one bucket has both, a free slot does not count.
        for i in 0..4 {
            if runs::is_damaged(words[i], m) {
                found = Err(Refusal::Damaged);
                break 'search;
            }
        }
        for s in 0..4 {
            if words[s] == 0 {
                found = Ok(paths::path_back(&queue, slots, v, s));
                break 'search;
            }
        }
        if v < NEAR {
            let at = 2 + 4 * v;
            for (j, &word) in words.iter().enumerate() {
                queue[at + j] = paths::child(b, word, n);
            }
        }
    }
    found
}

// Room for an entry whose buckets are `first` and `second`, among n buckets and m places. Where the first has it, no queue is made.
pub fn search(slots: &[u32], n: u32, m: u32, first: u32, second: u32) -> Result<Found, Refusal>
    requires { Asked four slots.now n first second }
    ensures { FoundIs four n m slots.now first second result }
{
    match paths::free_among(paths::words_at(slots, first), m)? {
        Some(s) => Ok(paths::room_at_home(first, s)),
        None => search_list(slots, n, m, first, second),
    }
}
