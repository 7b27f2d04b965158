// The types that every crate shares: the runs that a call is lent, what it answers, and why it refuses. The meaning of document 01, and of
// the wishes that have landed, stands in specs/, the proofs in proofs/.
#![tactic(auto)]

ghost use Rattle.std.specs.Prelude.{◌≡◌, ℕ};
ghost use Rattle.model.specs.Said.{refusal_number};

// The three lent runs, for a look: slots, counters, items. Runs that are stored to are passed one by one: a struct round a `&mut` would need
// a clause on the name of each in every contract.
#[derive(Clone, Copy)]
pub struct Table<'a> {
    pub slots: &'a [u32],
    pub counters: &'a [u32],
    pub items: &'a [u64],
}

// What a set takes: the minute of issue and the minute of the call beside the animal and its permission.
#[derive(Clone, Copy)]
pub struct Grant {
    pub animal: u64,
    pub permission: u32,
    pub issued: u64,
    pub minute: u64,
}

// A move: the slot that it empties, the tag of the entry there, and the slot that the entry goes to. A cabinet passes it as it is.
#[repr(C)]
#[derive(Clone, Copy)]
pub struct MoveRecord {
    pub from: usize,
    pub tag: u32,
    pub to: usize,
}

// The empty record, behind the last move of a plan.
pub const NO_MOVE: MoveRecord = MoveRecord {
    from: 0,
    tag: 0,
    to: 0,
};

// Why a call refuses, by document 01's numbers and those of wishes 1 and 7.
#[derive(Clone, Copy, Debug, PartialEq, Eq)]
pub enum Refusal {
    Lengths = 1,
    NoAnimal = 2,
    Minutes = 3,
    Damaged = 4,
    NoPlace = 5,
    NoRoom = 6,
    Absent = 7,
    Busy = 8,
    ShortBuffer = 9,
    NoVictim = 10,
    Late = 11,
    NoStep = 12,
}

impl From<Refusal> for u32 {
    ghost from_gives = { λ refusal n. n ≡ refusal_number refusal };

    fn from(refusal: Refusal) -> u32 {
        refusal as u32
    }
}

// What is told as a number: a refusal by its own, and a number as itself.
pub trait Numbered: Copy {
    ghost number: { Self → ℕ };

    fn number(self) -> u64
        ensures { result ≡ number self };
}

impl Numbered for Refusal {
    ghost number = { refusal_number };

    fn number(self) -> u64 {
        u64::from(u32::from(self))
    }
}

impl Numbered for u32 {
    ghost number = { λ n. n };

    fn number(self) -> u64 {
        u64::from(self)
    }
}

impl Numbered for u64 {
    ghost number = { λ n. n };

    fn number(self) -> u64 {
        self
    }
}

impl Numbered for usize {
    ghost number = { λ n. n };

    fn number(self) -> u64 {
        self as u64
    }
}

// Read, serve and the plain engine: the minutes that are left of the limit, negative when overdue.
#[derive(Clone, Copy)]
pub enum Reading {
    Absent,
    Fresh { permission: u32, left: i64 },
    Old { left: i64 },
    Ahead,
}

// Set: the buckets visited and the moves made.
#[derive(Clone, Copy)]
pub struct Stored {
    pub visits: usize,
    pub moves: usize,
}

// A plan: the first `count` of its moves, in the order of making, then the place and the slot of the final store. A cabinet gets the four
// records as they are.
#[derive(Clone, Copy)]
pub struct Plan {
    pub moves: [MoveRecord; 4],
    pub count: usize,
    pub place: usize,
    pub slot: usize,
}

// Evict: the victim's number and the places looked at. The hand comes back beside it.
#[derive(Clone, Copy)]
pub struct Evicted {
    pub victim: u64,
    pub looked: usize,
}
