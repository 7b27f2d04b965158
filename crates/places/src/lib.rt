// Walks over the item words, four to a place: the clock hand and its victim, the first place with a number, the lowest vacant one.
#![tactic(auto)]

ghost use Rattle.std.specs.Prelude.{◌≡◌, ◌+◌, ◌*◌, ◌<◌, ◌≤◌, length};
ghost use Rattle.model.specs.Clock.{next_hand, victim};
ghost use Rattle.model.specs.Calls.{vacant_place};
ghost use Rattle.places.specs.Walks.{scanned, first_from, first_with};

// The clock hand, by value.
#[derive(Clone, Copy)]
pub struct Hand {
    pub at: usize,
}

impl Hand {
    // One place on, wrapping at m. A hand beyond m goes to 0, so that no caller needs to show that it is below.
    pub fn step(self, m: usize) -> Hand
        ensures { result.at ≡ next_hand m self.at }
    {
        let at = self.at;
        if m <= at {
            return Hand { at: 0 };
        }
        let next = at + 1;
        if next < m {
            return Hand { at: next };
        }
        Hand { at: 0 }
    }
}

// The victim's place, and how many places were looked at.
#[derive(Clone, Copy)]
pub struct Victim {
    pub place: usize,
    pub looked: usize,
}

// The victim from the hand on, within 2m places looked at: in the second turn a recent word counts as cleared, so that no store is needed.
pub fn find_victim(items: &[u64], m: usize, hand: Hand) -> Option<Victim>
    requires { (hand.at < m) × (m ≤ 4096) × (length items.now ≡ 4 * m) }
    ensures { scanned result ≡ victim m items.now hand.at }
{
    let mut h = hand;
    for looked in 0..2 * m {
        let place = h.at;
        let animal = items[4 * place];
        let recent = items[4 * place + 3];
        if (animal != 0) & ((recent == 0) | (m <= looked)) {
            return Some(Victim {
                place,
                looked: looked + 1,
            });
        }
        h = h.step(m);
    }
    None
}

// The first of the places from p on that has the number, place by place.
fn place_from(items: &[u64], m: usize, p: usize, x: u64) -> Option<usize>
    requires { (m ≤ 4096) × (length items.now ≡ 4 * m) }
    ensures { result ≡ first_from m items.now x p }
{
    (p..m).find(|&q| items[4 * q] == x)
}

// The first of m places that has the number: sixteen a turn, a test which the compiler unrolls, as it does not a walk that may end at any
// place; then place by place where one of them has it or fewer are left.
#[inline(always)]
pub fn place_of(items: &[u64], m: usize, x: u64) -> Option<usize>
    requires { (m ≤ 4096) × (length items.now ≡ 4 * m) }
    ensures { result ≡ first_with m items.now x }
{
    for turn in 0..m / 16 {
        let p = 16 * turn;
        if (p..p + 16).any(|q| items[4 * q] == x) {
            return place_from(items, m, p, x);
        }
    }
    place_from(items, m, 16 * (m / 16), x)
}

// The lowest vacant one of m places: its number is 0.
pub fn vacant_place(items: &[u64], m: usize) -> Option<usize>
    requires { (m ≤ 4096) × (length items.now ≡ 4 * m) }
    ensures { result ≡ vacant_place m items.now }
{
    place_of(items, m, 0)
}
