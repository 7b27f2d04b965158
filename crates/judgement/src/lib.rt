// The types of wish 5. What a judgement is stands in specs/, the proofs in proofs/.
#![tactic(auto)]

ghost use Rattle.std.specs.Prelude.{◌≡◌, ℕ};
ghost use Rattle.judgement.specs.Said.{condition_number, condition_told, breaker_told};

// The eight conditions, by the wish's numbers.
#[derive(Clone, Copy, Debug, PartialEq, Eq)]
pub enum Condition {
    Lengths = 1,
    Damage = 2,
    Odd = 3,
    Stray = 4,
    Unsought = 5,
    Doubled = 6,
    Wide = 7,
    Unswept = 8,
}

impl From<Condition> for u32 {
    ghost from_gives = { λ condition n. n ≡ condition_number condition };

    fn from(condition: Condition) -> u32 {
        condition as u32
    }
}

// A no: the first broken condition, and the lowest run, slot, counter or place that breaks it.
#[derive(Clone, Copy, Debug, PartialEq, Eq)]
pub struct Broken {
    pub condition: Condition,
    pub at: usize,
}

// What is told as a no: by the number of the condition, and the number that breaks it.
pub trait Breach: Copy {
    ghost condition: { Self → ℕ };

    ghost breaker: { Self → ℕ };

    fn condition(self) -> u64
        ensures { result ≡ condition self };

    fn breaker(self) -> u64
        ensures { result ≡ breaker self };
}

impl Breach for Broken {
    ghost condition = { condition_told };

    ghost breaker = { breaker_told };

    fn condition(self) -> u64 {
        u64::from(u32::from(self.condition))
    }

    fn breaker(self) -> u64 {
        self.at as u64
    }
}

impl Breach for (u32, usize) {
    ghost condition = { λ told. told.0 };

    ghost breaker = { λ told. told.1 };

    fn condition(self) -> u64 {
        u64::from(self.0)
    }

    fn breaker(self) -> u64 {
        self.1 as u64
    }
}
