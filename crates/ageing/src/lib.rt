// The age of a permission: what is said of a stamp at a minute, under a limit, and how long is left; and the minutes that a set brings.
#![tactic(auto)]

ghost use Rattle.std.specs.Prelude.{◌≡◌, ◌≤◌, false, ℕ, Ok};
ghost use Rattle.model.specs.Age.{verdict, left_of, bad_time, bad_grant, late};
ghost use Rattle.model.specs.Answers.{says_fresh};
ghost use Rattle.model.specs.Said.{read_as, said_reading, said_with};

use model::{Grant, Reading};

// As now, the largest number is no minute.
const NO_MINUTE: u64 = u64::MAX;

// As the stamp of an entry, the largest number marks a standing permission, which is retired.
const RETIRED_MARK: u64 = u64::MAX;

// The least that is told to be left: -2^62.
const LEAST_LEFT: i64 = -4611686018427387904;

// The limit or the minute is out of range.
pub fn is_bad_time(limit: u64, minute: u64) -> bool
    ensures { result ≡ bad_time limit minute }
{
    (10080 < limit) | (minute == NO_MINUTE)
}

// How long is left: the limit minus the age, and -2^62 where that would be below it. The age is tested first, so that nothing wraps.
fn left_of(limit: u64, age: u64) -> i64
    requires { limit ≤ 10080 }
    ensures { result ≡ left_of limit age }
{
    if age < limit + 4611686018427387904 {
        return (limit as i64) - (age as i64);
    }
    LEAST_LEFT
}

// What is said of a permission and its stamp. Requires a limit and a minute that refusal 3 lets pass. The mark is later than every minute,
// so it is looked for only where the stamp is later than now: no other read pays for the test.
pub fn judged(permission: u64, stamp: u64, limit: u64, minute: u64) -> Reading
    requires { bad_time limit minute ≡ false }
    ensures { said_reading (Ok result) ≡ verdict limit minute permission stamp }
{
    let told = (permission % 4294967296) as u32;
    if minute < stamp {
        if stamp == RETIRED_MARK {
            return Reading::Old { left: LEAST_LEFT };
        }
        return Reading::Ahead;
    }
    let age = minute - stamp;
    let left = left_of(limit, age);
    if age <= limit {
        return Reading::Fresh {
            permission: told,
            left,
        };
    }
    Reading::Old { left }
}

// The answer is fresh, which no refusal is, whatever its number: serve marks by what it says.
pub fn is_fresh<E: Copy>(told: Result<Reading, E>) -> bool
    ensures { (number : E → ℕ) → result ≡ says_fresh (said_with number read_as told) }
{
    matches!(told, Ok(Reading::Fresh { .. }))
}

// The minutes of a set are out of range: now is no minute, or the minute of issue is later. One test tells both, for behind the last
// number comes 0.
pub fn is_bad_grant(g: Grant) -> bool
    ensures { result ≡ bad_grant g }
{
    g.minute.wrapping_add(1) <= g.issued
}

// The list is late for an animal that is held with that stamp: the stamp is later, and not retired.
pub fn is_late(stamp: u64, g: Grant) -> bool
    ensures { result ≡ late stamp g }
{
    (g.issued < stamp) & (stamp != RETIRED_MARK)
}
