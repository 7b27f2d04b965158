// The rule of a step by the words that it finds. Nothing is read here: whoever asks brings the words, of the table or of one that moves
// would leave. The ways of a table come in as a shift: it has 2^shift slots a bucket.
#![tactic(auto)]

ghost use Rattle.std.specs.Prelude.{◌^◌, ◌≤◌, ◌<◌, ◌≡◌};
ghost use Rattle.model.specs.Hash.{Size};
ghost use Rattle.step_rules.specs.Rules.{enters_by, moves_by};

use model::MoveRecord;

// Whether a move may be made among `long` slots, n buckets and m places: w is the word in its source, d the word in its destination.
pub fn may_move(long: usize, n: u32, m: u32, shift: u32, w: u32, d: u32, v: MoveRecord) -> bool
    requires { Size n × (long ≤ 8192) × (shift < 32) }
    ensures { result ≡ moves_by (2 ^ shift) long n m w d v }
{
    if long <= v.from || long <= v.to {
        return false;
    }
    let bad = runs::is_damaged(w, m);
    let other = hashing::other_of((v.from >> shift) as u32, w / 65536, n);
    (w != 0) & (!bad & ((w / 65536 == v.tag) & ((d == 0) & ((v.to >> shift) as u32 == other))))
}

// Whether the final store of an animal with these two buckets may be made among `long` slots: `number` is the animal number of the
// place, w the word in the slot. That the animal is absent and the place is there is the caller's to see.
pub fn may_enter(
    long: usize,
    shift: u32,
    first: u32,
    second: u32,
    number: u64,
    w: u32,
    slot: usize,
) -> bool
    requires { (long ≤ 8192) × (shift < 32) }
    ensures { result ≡ enters_by (2 ^ shift) long first second number w slot }
{
    if long <= slot {
        return false;
    }
    let b = (slot >> shift) as u32;
    (number == 0) & ((w == 0) & ((b == first) | (b == second)))
}
