// Conditions 1, 2, 3, 7 and 8 of wish 5, each by one walk to the lowest number that breaks it.
#![tactic(auto)]

ghost use Rattle.std.specs.Prelude.{◌≡◌, ◌/◌, length};
ghost use Rattle.model.specs.Choice.{first, range};
ghost use Rattle.model.specs.Shape.{four};
ghost use Rattle.judgement.specs.Conditions.{is_hurt, is_misshapen, is_uneven, is_unswept, is_wide};

// 1: the lowest run of a wrong length: 0 slots, 1 counters, 2 items.
pub fn misshapen_run(s: usize, v: usize, i: usize) -> Option<usize>
    ensures { result ≡ first (is_misshapen four s v i) (range 0 3) }
{
    let wrong = [
        !hashing::good_slots_length(s),
        !hashing::good_counters_length(v),
        !hashing::good_items_length(i),
    ];
    wrong.iter().position(|&wrong| wrong)
}

// 2: the lowest slot with a damaged word, among m places.
pub fn damaged_slot(slots: &[u32], m: u32) -> Option<usize>
    ensures { result ≡ first (is_hurt m slots.now) (range 0 (length slots.now)) }
{
    slots.iter().position(|&w| runs::is_damaged(w, m))
}

// 3: the lowest counter that isn't even.
pub fn uneven_counter(counters: &[u32]) -> Option<usize>
    ensures { result ≡ first (is_uneven counters.now) (range 0 (length counters.now)) }
{
    counters.iter().position(|&n| n % 2 != 0)
}

// 7: the lowest place whose permission does not fit 32 bits.
pub fn wide_place(items: &[u64]) -> Option<usize>
    ensures { result ≡ first (is_wide items.now) (range 0 (length items.now / 4)) }
{
    (0..items.len() / 4).find(|&p| 4294967296 <= items[4 * p + 1])
}

// 8: the lowest vacant place that isn't all zero.
pub fn unswept_place(items: &[u64]) -> Option<usize>
    ensures { result ≡ first (is_unswept items.now) (range 0 (length items.now / 4)) }
{
    (0..items.len() / 4).find(|&p| {
        let at = 4 * p;
        (items[at] == 0) & !((items[at + 1] == 0) & ((items[at + 2] == 0) & (items[at + 3] == 0)))
    })
}
