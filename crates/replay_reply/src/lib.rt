// One line of a text and its reply: a call, or a run of a dump. The runs and the buffer stay parameters of their own: a struct round a `&mut`
// would need a clause on the name of each in every contract. That lines are behind the position and missed ones among them is asked of each
// state that is built by `..state`, which no struct with a ghost field may be.
#![tactic(auto)]

ghost use Rattle.std.specs.Prelude.{◌≡◌, ◌+◌, ◌<◌, ◌≤◌, length, get_or};
ghost use Rattle.replay_lines.specs.Reasons.{reason_number};
ghost use Rattle.replay_loads.specs.Load.{loading, run_number};
ghost use Rattle.replay_loads.specs.Cursor.{Measures};
ghost use Rattle.replay_loads.specs.declared.Measured.TheVariants as measures;
ghost use Rattle.replay_rows.specs.World.{longest_line};
ghost use Rattle.replay_rows.specs.Loaded.{room_of as room};
ghost use Rattle.replay_rows.specs.Replayed.{follows, numbers_of, reply_by, reply_to, unheard_by, unheard_line};
ghost use Rattle.replay_steps.specs.Standing.{in_use, Held};
ghost use Rattle.replay_reply.specs.Answered.{Answers, Behind, Replaced};

use model::Refusal;
use replay_lines::Reason;
use replay_loads::{Measured, Run};
use replay_rows::Row;
use replay_steps::State;

// The rows of the language, in its order.
const LANGUAGE: &[u8] =
    b"serve N N N\nread N N N\nset N P N N\ndelete N\nevict\ncut N set N P N N\ncut N delete N\ncut N evict\nhand N\nlist B\npoke slots N N\npoke counters N N\npoke items N N\ndump\nfresh N N N\nplain N N N\njudge\nplan N P N N\nmove N N N N P N N\nenter N N N P N N\n\n";

// The call of a line, by the number of the row that it follows.
fn make_call(
    row: usize,
    numbers: &[u64; 8],
    echo: bool,
    slots: &mut [u32],
    counters: &mut [u32],
    items: &mut [u64],
    records: &mut [u8],
    out: &mut [u8],
    state: State,
) -> State
    requires held { Held slots.old counters.old items.old state × (state.at + longest_line ≤ length out.old) }
    requires number_lt_from { (state.number < state.from) × (state.missed ≤ state.number) × (length records.old ≡ 81920) × (row < 21) }
    ensures { Answers (follows echo (state.number + 1) row numbers.now (in_use slots.old counters.old items.old state))
        0 state result slots.new counters.new items.new out.old out.new }
{
    let number = state.number + 1;
    let at = replay_rows::show_call(LANGUAGE, echo, row, numbers, number, out, state.at);
    let here = State {
        number,
        at,
        ..state
    };
    let named = Row::try_from(row).unwrap();
    replay_steps::step(
        Ok(named),
        numbers,
        slots,
        counters,
        items,
        records,
        out,
        here,
    )
}

// A line more, and the buffer filled up to a position.
fn behind(state: State, at: usize, missed: u64) -> State
    requires { (state.number < state.from) × (state.missed ≤ state.number) × (missed ≤ 1) }
    ensures { Behind state at missed result }
{
    State {
        number: state.number + 1,
        missed: state.missed + missed,
        at,
        ..state
    }
}

// How many words the program holds of a run.
fn room_of(run: Run) -> usize
    ensures { result ≡ room (run_number run) }
{
    match run {
        Run::Slots => 8192,
        Run::Counters => 1024,
        Run::Items => 4096,
    }
}

// The words of a line into its run, which has as many words from then on.
fn replace(
    line: &[u8],
    run: Run,
    count: usize,
    slots: &mut [u32],
    counters: &mut [u32],
    items: &mut [u64],
    state: State,
) -> State
    requires { Measures (loading line.now) (measures.Loads run count) × (count ≤ room (run_number run)) × Held slots.old counters.old items.old state }
    ensures { Replaced line.now (run_number run) slots.old counters.old items.old state result
        slots.new counters.new items.new }
{
    match run {
        Run::Slots => {
            replay_loads::pour(line, slots);
            State {
                slots: count,
                ..state
            }
        }
        Run::Counters => {
            replay_loads::pour(line, counters);
            State {
                counters: count,
                ..state
            }
        }
        Run::Items => {
            replay_loads::pour(line, items);
            State {
                items: count,
                ..state
            }
        }
    }
}

// A line of a dump: its run is replaced, if the program holds as many words.
fn load(
    line: &[u8],
    run: Run,
    count: usize,
    echo: bool,
    slots: &mut [u32],
    counters: &mut [u32],
    items: &mut [u64],
    out: &mut [u8],
    state: State,
) -> State
    requires count_value { Measures (loading line.now) (measures.Loads run count) × Held slots.old counters.old items.old state × (state.at + longest_line ≤ length out.old) }
    requires number_lt_from { (state.number < state.from) × (state.missed ≤ state.number) }
    ensures { Answers (reply_by (loading line.now) echo (state.number + 1) (in_use slots.old counters.old items.old state) line.now)
        (unheard_by (loading line.now)) state result slots.new counters.new items.new out.old out.new }
{
    let at = replay_rows::show_load(echo, run, state.number + 1, out, state.at);
    if room_of(run) < count {
        let end = replay_answers::put_refused(out, at, Refusal::Lengths);
        return behind(state, end, 0);
    }
    let end = replay_print::put_line(out, at, b"loaded");
    let here = behind(state, end, 0);
    replace(line, run, count, slots, counters, items, here)
}

// A line that follows no row: one of a dump, or one that is not understood, and why. It stays a call, so that the loop that nearly all lines take stays small.
#[inline(never)]
fn beside_the_rows(
    line: &[u8],
    why: Reason,
    echo: bool,
    slots: &mut [u32],
    counters: &mut [u32],
    items: &mut [u64],
    out: &mut [u8],
    state: State,
) -> State
    requires held { Held slots.old counters.old items.old state × (state.at + longest_line ≤ length out.old) }
    requires number_lt_from { (state.number < state.from) × (state.missed ≤ state.number) × (reason_number why ≡ get_or (numbers_of line.now) 0 0) }
    ensures { Answers (reply_by (loading line.now) echo (state.number + 1) (in_use slots.old counters.old items.old state) line.now)
        (unheard_by (loading line.now)) state result slots.new counters.new items.new out.old out.new }
{
    match replay_loads::measure(line) {
        Measured::Other => {
            let end = replay_answers::put_not_understood(out, state.at, state.number + 1, why);
            behind(state, end, 1)
        }
        Measured::Faulty(word) => {
            let end = replay_answers::put_not_understood(out, state.at, state.number + 1, word);
            behind(state, end, 1)
        }
        Measured::Loads(run, count) => load(
            line, run, count, echo, slots, counters, items, out, state,
        ),
    }
}

// The next line, given without its LF, and the position behind it already in the state. The rows come first: most lines are calls.
pub fn reply(
    line: &[u8],
    echo: bool,
    slots: &mut [u32],
    counters: &mut [u32],
    items: &mut [u64],
    records: &mut [u8],
    out: &mut [u8],
    state: State,
) -> State
    requires held { Held slots.old counters.old items.old state × (state.at + longest_line ≤ length out.old) }
    requires number_lt_from { (state.number < state.from) × (state.missed ≤ state.number) × (length records.old ≡ 81920) }
    ensures { Answers (reply_to echo (state.number + 1) (in_use slots.old counters.old items.old state) line.now)
        (unheard_line line.now) state result slots.new counters.new items.new out.old out.new }
{
    let mut numbers = [0u64; 8];
    match replay_lines::row_of(LANGUAGE, line, &mut numbers) {
        Ok(row) => make_call(
            row, &numbers, echo, slots, counters, items, records, out, state,
        ),
        Err(why) => beside_the_rows(line, why, echo, slots, counters, items, out, state),
    }
}
