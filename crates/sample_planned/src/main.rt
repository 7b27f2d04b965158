// A set in steps as a Rattle program makes it: the plan goes along by value, four records, and each step says which of them it makes.
// Beside it a set, on a table with the same words. The runs go along one by one: a struct round a `&mut` would need a clause on the name of
// each in every contract.
#![tactic(auto)]

ghost use Rattle.std.specs.Prelude.{ℕ, ◌≡◌, ◌+◌, ◌≤◌, length};

use model::{Grant, MoveRecord, Table};

// The herd of samples/steps.calls: 17 has the buckets 0 and 1, and both are full.
const HERD: [u64; 12] = [1, 5, 9, 13, 12, 16, 20, 24, 2, 6, 10, 14];

// What `put` puts into a buffer goes out; it gives the position behind it.
fn say<F: FnOnce(&mut [u8]) -> usize>(rt: &HostRuntime, put: F)
    requires callable { (line : _) → length line.now ≡ 384 → F.pre put line }
    requires inside { (line : _) (n : ℕ) (after : _) → F.post put line n after → n ≤ 384 }
{
    let mut line = [0u8; 384];
    let n = put(&mut line);
    let _ = rt.write_all(&line[..n]);
}

// Every word of a table of no more than the herd's.
fn say_dump(rt: &HostRuntime, slots: &[u32], counters: &[u32], items: &[u64])
    requires { length slots.now + length counters.now + length items.now ≤ 76 }
{
    let table = Table {
        slots,
        counters,
        items,
    };
    let mut lines = [0u8; 1980];
    let n = replay_answers::put_dump(&mut lines, 0, &table);
    let _ = rt.write_all(&lines[..n]);
}

// A permission of minute 100.
fn granted(animal: u64, permission: u32, minute: u64) -> Grant {
    Grant {
        animal,
        permission,
        issued: 100,
        minute,
    }
}

fn herd(slots: &mut [u32], counters: &mut [u32], items: &mut [u64]) {
    let _ = starting::fresh(slots, counters, items);
    for animal in HERD {
        let _ = setting::set(slots, counters, items, granted(animal, 1, 100));
    }
}

// The plan's two moves, and then what is no move of it: an empty record, and a number behind the four.
fn moves_of(
    rt: &HostRuntime,
    slots: &mut [u32],
    counters: &mut [u32],
    items: &[u64],
    g: Grant,
    plan: [MoveRecord; 4],
) {
    for k in [0, 1, 2, 4] {
        let said = stepping::step_planned(slots, counters, items, g, plan, k);
        say(rt, |line| replay_answers::put_moved(line, 0, said));
    }
}

// A plan, its moves, its final store.
fn in_steps(rt: &HostRuntime, slots: &mut [u32], counters: &mut [u32], items: &mut [u64]) {
    let g = granted(17, 2, 130);
    let planned = planning::plan(
        &Table {
            slots,
            counters,
            items,
        },
        g,
    );
    say(rt, |line| replay_answers::put_plan(line, 0, planned));
    if let Ok(plan) = planned {
        moves_of(rt, slots, counters, items, g, plan.moves);
        let said = stepping::step_enter(slots, counters, items, g, plan.place, plan.slot);
        say(rt, |line| replay_answers::put_entered(line, 0, said));
    }
}

// A set.
fn at_once(rt: &HostRuntime, slots: &mut [u32], counters: &mut [u32], items: &mut [u64]) {
    let said = setting::set(slots, counters, items, granted(17, 2, 130));
    say(rt, |line| replay_answers::put_setting(line, 0, said));
}

fn main(rt: HostRuntime) {
    let mut slots = [0u32; 16];
    let mut counters = [0u32; 4];
    let mut items = [0u64; 56];
    herd(&mut slots, &mut counters, &mut items);
    in_steps(&rt, &mut slots, &mut counters, &mut items);
    say_dump(&rt, &slots, &counters, &items);
    herd(&mut slots, &mut counters, &mut items);
    at_once(&rt, &mut slots, &mut counters, &mut items);
    say_dump(&rt, &slots, &counters, &items);
}
