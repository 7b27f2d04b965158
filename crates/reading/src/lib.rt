// Read, serve and find.
#![tactic(auto)]

ghost use Rattle.std.specs.Prelude.{◌≡◌, false, ◌+◌, ◌*◌, ◌≤◌, length, set, Ok};
ghost use Rattle.model.specs.Choice.{choose};
ghost use Rattle.model.specs.Memory.{mem, permission, stamp};
ghost use Rattle.model.specs.Seen.{seen};
ghost use Rattle.model.specs.Shape.{four};
ghost use Rattle.model.specs.Calling.{read, serve, find};
ghost use Rattle.model.specs.Age.{verdict, bad_time};
ghost use Rattle.model.specs.Lent.{lent_call};
ghost use Rattle.model.specs.Said.{said_reading, said_finding};
ghost use Rattle.model.specs.Promised.{WholeAs};

use model::{Reading, Refusal, Table};

// The place of the hit is judged by its permission and stamp. The test in word_or is for speed: without it the compiler reads the
// permission behind a branch on the age, which can't be foretold.
fn judged_at(items: &[u64], place: u32, limit: u64, minute: u64) -> Reading
    requires place_in_bounds { 4 * place + 4 ≤ length items.now }
    requires minute_value { bad_time limit minute ≡ false }
    ensures { said_reading (Ok result) ≡ verdict limit minute (permission items.now place) (stamp items.now place) }
{
    let at = 4 * (place as usize);
    let permission = runs::word_or(items, at + 1, 0);
    ageing::judged(permission, items[at + 2], limit, minute)
}

pub fn read(table: &Table, animal: u64, limit: u64, minute: u64) -> Result<Reading, Refusal>
    ensures { said_reading result
        ≡ (lent_call four (seen table.now) (read animal limit minute)).answer }
{
    let bad = ageing::is_bad_time(limit, minute);
    looking::refused_early(
        table.slots.len(),
        table.counters.len(),
        table.items.len(),
        animal,
        bad,
    )?;
    match looking::look_up(table, animal).hit? {
        Some(word) => Ok(judged_at(table.items, word % 65536, limit, minute)),
        None => Ok(Reading::Absent),
    }
}

// Serve stores 1 in the recent word, and only where the answer is fresh.
fn mark_recent(items: &mut [u64], place: u32, fresh: bool)
    requires { 4 * place + 4 ≤ length items.old }
    ensures { items.new ≡ choose fresh (set items.old (4 * place + 3) 1) items.old }
{
    if fresh {
        items[4 * (place as usize) + 3] = 1;
    }
}

pub fn serve(
    slots: &[u32],
    counters: &[u32],
    items: &mut [u64],
    animal: u64,
    limit: u64,
    minute: u64,
) -> Result<Reading, Refusal>
    ensures { WholeAs four (mem slots.now counters.now items.old) (serve animal limit minute)
        (mem slots.now counters.now items.new) (said_reading result) }
{
    let bad = ageing::is_bad_time(limit, minute);
    looking::refused_early(slots.len(), counters.len(), items.len(), animal, bad)?;
    let table = Table {
        slots,
        counters,
        items: &*items,
    };
    match looking::look_up(&table, animal).hit? {
        Some(word) => {
            let told = Ok(judged_at(items, word % 65536, limit, minute));
            mark_recent(items, word % 65536, ageing::is_fresh(told));
            told
        }
        None => Ok(Reading::Absent),
    }
}

// The place of an animal.
pub fn find(table: &Table, animal: u64) -> Result<Option<usize>, Refusal>
    ensures { said_finding result ≡ (lent_call four (seen table.now) (find animal)).answer }
{
    looking::refused_early(
        table.slots.len(),
        table.counters.len(),
        table.items.len(),
        animal,
        false,
    )?;
    let hit = looking::look_up(table, animal).hit?;
    Ok(hit.map(|word| (word % 65536) as usize))
}
