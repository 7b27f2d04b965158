// One line of a replay, fresh too, on the runs in use. The runs, the buffers and the state stay parameters of their own: a struct round a
// `&mut` would need a clause on its name in every contract.
#![tactic(auto)]

ghost use Rattle.std.specs.Prelude.{◌≡◌, ◌+◌, ◌≤◌, length};
ghost use Rattle.replay_rows.specs.Meaning.{starts};
ghost use Rattle.replay_rows.specs.World.{longest};
ghost use Rattle.replay_steps.specs.Standing.{in_use, Held, Stepped, Refused};

use model::Refusal;
use replay_rows::{Followed, Row};

// Where the replay stands: the lengths of the three runs in use and the hand; the lines that are behind it and how many of them were not understood, the position in the text, and in the buffer.
#[derive(Clone, Copy)]
pub struct State {
    pub slots: usize,
    pub counters: usize,
    pub items: usize,
    pub hand: usize,
    pub number: u64,
    pub missed: u64,
    pub from: usize,
    pub at: usize,
}

// A refused fresh leaves the table there was.
fn refuse_fresh(out: &mut [u8], state: State) -> State
    requires { state.at + longest ≤ length out.old }
    ensures { Refused state out.old out.new result }
{
    State {
        at: replay_answers::put_refused(out, state.at, Refusal::Lengths),
        ..state
    }
}

// Fresh: the runs are in use from then on as long as it says. One beyond what the program holds is refused as a wrong length is.
fn start(
    s: usize,
    v: usize,
    i: usize,
    slots: &mut [u32],
    counters: &mut [u32],
    items: &mut [u64],
    out: &mut [u8],
    state: State,
) -> State
    requires { Held slots.old counters.old items.old state × (state.at + longest ≤ length out.old) }
    ensures { Stepped (starts s v i (in_use slots.old counters.old items.old state)) state result
        slots.new counters.new items.new out.old out.new }
{
    if slots.len() < s || counters.len() < v || items.len() < i {
        return refuse_fresh(out, state);
    }
    match starting::fresh(&mut slots[..s], &mut counters[..v], &mut items[..i]) {
        Err(_) => refuse_fresh(out, state),
        Ok(()) => State {
            slots: s,
            counters: v,
            items: i,
            hand: 0,
            at: replay_print::put_line(out, state.at, b"fresh"),
            ..state
        },
    }
}

// One line, on the runs in use.
#[tactic(auto, unfolding(replay_rows::specs::Meaning::meaning))]
pub fn step<F: Followed>(
    follows: F,
    numbers: &[u64; 8],
    slots: &mut [u32],
    counters: &mut [u32],
    items: &mut [u64],
    records: &mut [u8],
    out: &mut [u8],
    state: State,
) -> State
    requires held { Held slots.old counters.old items.old state × (state.at + longest ≤ length out.old) }
    requires records_len { length records.old ≡ 81920 }
    ensures { Stepped (F.means follows state.number numbers.now (in_use slots.old counters.old items.old state)) state result
        slots.new counters.new items.new out.old out.new }
{
    let row = follows.row(numbers);
    if row == Ok(Row::Fresh) {
        let [s, v, i, ..] = *numbers;
        return start(
            s as usize, v as usize, i as usize, slots, counters, items, out, state,
        );
    }
    let turn = replay_turns::on_table(
        row,
        state.number,
        numbers,
        &mut slots[..state.slots],
        &mut counters[..state.counters],
        &mut items[..state.items],
        records,
        out,
        state.at,
        state.hand,
    );
    State {
        hand: turn.hand,
        at: turn.next,
        ..state
    }
}
