// Replays the lines of a text, one after the other, and hands over their answers in portions. The runs and the buffers stay parameters of
// their own: a struct round a `&mut` would need a clause on the name of each in every contract.
#![tactic(auto)]

ghost use Rattle.std.specs.Prelude.{◌≡◌, ◌+◌, ◌<◌, ◌≤◌, length, IfOk};
ghost use Rattle.replay_rows.specs.World.{longest_line};
ghost use Rattle.replay_steps.specs.Standing.{Held};
ghost use Rattle.replay_loop.specs.Going.{Ended, Next, Went};

use replay_steps::State;
use replay_words::Piece;
use std::io;

// The next line of the text.
fn next_line(
    calls: &[u8],
    echo: bool,
    slots: &mut [u32],
    counters: &mut [u32],
    items: &mut [u64],
    records: &mut [u8],
    out: &mut [u8],
    state: State,
) -> State
    requires held { Held slots.old counters.old items.old state × (state.at + longest_line ≤ length out.old) }
    requires from_in_bounds { (state.from < length calls.now) × (state.number ≤ state.from) × (state.missed ≤ state.number) × (length records.old ≡ 81920) }
    ensures went { Went echo calls.now slots.old counters.old items.old out.old state
        slots.new counters.new items.new out.new result }
    ensures from_lt_from { state.from < result.from }
{
    let Piece { end, next } = replay_words::piece_at(calls, state.from);
    let line = &calls[state.from..end];
    let behind = State {
        from: next,
        ..state
    };
    replay_reply::reply(line, echo, slots, counters, items, records, out, behind)
}

// Lines until the buffer may not hold the next answer, or the text ends: at least one.
fn portion(
    calls: &[u8],
    echo: bool,
    slots: &mut [u32],
    counters: &mut [u32],
    items: &mut [u64],
    records: &mut [u8],
    out: &mut [u8],
    start: State,
) -> State
    requires held { Held slots.old counters.old items.old start × (start.at ≡ 0) × (longest_line ≤ length out.old) }
    requires from_in_bounds { (start.from < length calls.now) × (start.number ≤ start.from) × (start.missed ≤ start.number) × (length records.old ≡ 81920) }
    ensures went { Went echo calls.now slots.old counters.old items.old out.old start
        slots.new counters.new items.new out.new result }
    ensures from_lt_from { (start.from < result.from) × (result.at ≤ length out.old) }
{
    let mut state = start;
    while state.from < calls.len() {
        if out.len() - state.at < 294912 {
            return state;
        }
        state = next_line(calls, echo, slots, counters, items, records, out, state);
    }
    state
}

// The next bytes of the answers go out; how many have then gone.
fn hand_over<R: Print>(
    rt: &R,
    portion: &[u8],
    calls: &[u8],
    echo: bool,
    written: u64,
) -> io::Result<u64>
    requires { Next echo calls.now written portion.now }
    ensures { IfOk result (λ gone. gone ≡ written + length portion.now) }
{
    rt.write_all(portion)?;
    Ok(written + portion.len() as u64)
}

// What came of a replay whose answers could all be written: how many bytes they were, and how many lines were not understood.
#[derive(Clone, Copy, Debug)]
pub struct Replayed {
    pub bytes: u64,
    pub missed: u64,
}

// All portions of a text's answers. A text may begin with a byte order mark.
fn portions<R: Print>(
    rt: &R,
    calls: &[u8],
    echo: bool,
    slots: &mut [u32],
    counters: &mut [u32],
    items: &mut [u64],
    records: &mut [u8],
    out: &mut [u8],
) -> io::Result<Replayed>
    requires runs { (length slots.old ≡ 8192) × (length counters.old ≡ 1024) × (length items.old ≡ 4096) }
    requires records_len { (length records.old ≡ 81920) × (longest_line ≤ length out.old) × (length calls.now ≤ 2097152) }
    ensures { Ended echo calls.now result }
{
    let mut state = State {
        slots: 0,
        counters: 0,
        items: 0,
        hand: 0,
        number: 0,
        missed: 0,
        from: replay_words::mark_length(calls),
        at: 0,
    };
    let mut written: u64 = 0;
    while state.from < calls.len() {
        let full = portion(calls, echo, slots, counters, items, records, out, state);
        written = hand_over(rt, &out[..full.at], calls, echo, written)?;
        state = State { at: 0, ..full };
    }
    Ok(Replayed {
        bytes: written,
        missed: state.missed,
    })
}

// The bytes that a list may fill: document 01's 20 bytes for each of 4,096 places. It says nothing of its elements, so that no proof counts them; nor does the next.
fn record_bytes() -> [u8; 81920]
    ensures { 81920 ≡ length result }
{
    [0; 81920]
}

// A portion: room for one answer more while it is not full.
fn portion_bytes() -> [u8; 299008]
    ensures { 299008 ≡ length result }
{
    [0; 299008]
}

// Replays a text on a table of the program's own, with the calls shown before their answers or not.
pub fn replay<R: Print>(rt: &R, calls: &[u8], echo: bool) -> io::Result<Replayed>
    requires { length calls.now ≤ 2097152 }
    ensures { Ended echo calls.now result }
{
    let mut slots = [0u32; 8192];
    let mut counters = [0u32; 1024];
    let mut items = [0u64; 4096];
    let mut records = record_bytes();
    let mut out = portion_bytes();
    portions(
        rt,
        calls,
        echo,
        &mut slots,
        &mut counters,
        &mut items,
        &mut records,
        &mut out,
    )
}
