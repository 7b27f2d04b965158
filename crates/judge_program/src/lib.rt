// The judge program: a dump is loaded line by line, and judged. The runs that are stored to stay parameters of their own: a struct round a
// `&mut` would need a clause on the name of each in every contract.
#![tactic(auto)]

ghost use Rattle.std.specs.Prelude.{◌≡◌, ℕ, ◌+◌, ◌≤◌, length, Ok};
ghost use Rattle.buffer.specs.Put.{Put};
ghost use Rattle.replay_loads.specs.Load.{loading};
ghost use Rattle.replay_loads.specs.Cursor.{Measures};
ghost use Rattle.replay_loads.specs.declared.Measured.TheVariants as measures;
ghost use Rattle.judge_program.specs.Dump.{dump_of, is_blank, told};
ghost use Rattle.judge_program.specs.Standing.{Judged, Lent, Stands, Taken, Told};

use judgement::{Broken, Condition};
use model::Table;
use replay_lines::Reason;
use replay_loads::{Measured, Run};
use replay_words::{Lines, Words};
use std::io::Read;

// How many words the slots, the counters and the items of a dump have.
#[derive(Clone, Copy, Debug, PartialEq, Eq)]
pub struct Lengths {
    pub slots: usize,
    pub counters: usize,
    pub items: usize,
}

// The first line that is not understood, and why.
#[derive(Clone, Copy, Debug, PartialEq, Eq)]
pub struct Unclear {
    pub line: u64,
    pub why: Reason,
}

// A line that is blank or a comment says nothing.
fn is_blank(line: &[u8]) -> bool
    ensures { result ≡ is_blank line.now }
{
    Words(replay_lines::body_of(line)).next().is_none()
}

// The words of a line into its run. Of a run longer than what is lent for it the rest is dropped, and its whole length is told.
fn load(
    line: &[u8],
    run: Run,
    count: usize,
    slots: &mut [u32],
    counters: &mut [u32],
    items: &mut [u64],
    known: Lengths,
) -> Lengths
    requires { Measures (loading line.now) (measures.Loads run count) }
    ensures { (number : ℕ) → Taken number line.now slots.old counters.old items.old known
        slots.new counters.new items.new (Ok result) }
{
    match run {
        Run::Slots => {
            replay_loads::pour(line, slots);
            Lengths {
                slots: count,
                ..known
            }
        }
        Run::Counters => {
            replay_loads::pour(line, counters);
            Lengths {
                counters: count,
                ..known
            }
        }
        Run::Items => {
            replay_loads::pour(line, items);
            Lengths {
                items: count,
                ..known
            }
        }
    }
}

// A line of a dump behind lines that were all understood.
fn add_line(
    line: &[u8],
    number: u64,
    slots: &mut [u32],
    counters: &mut [u32],
    items: &mut [u64],
    known: Lengths,
) -> Result<Lengths, Unclear>
    ensures { Taken number line.now slots.old counters.old items.old known
        slots.new counters.new items.new result }
{
    let why = match replay_loads::measure(line) {
        Measured::Loads(run, count) => {
            return Ok(load(line, run, count, slots, counters, items, known));
        }
        Measured::Other if is_blank(line) => return Ok(known),
        Measured::Other => Reason::UnknownWord,
        Measured::Faulty(why) => why,
    };
    Err(Unclear { line: number, why })
}

// The text of a dump, line after line; none counts behind one that is not understood.
pub fn read_dump(
    text: &[u8],
    slots: &mut [u32],
    counters: &mut [u32],
    items: &mut [u64],
) -> Result<Lengths, Unclear>
    ensures { Stands (dump_of text.now) slots.new counters.new items.new result }
{
    let mut known = Lengths {
        slots: 0,
        counters: 0,
        items: 0,
    };
    let lines = Lines(&text[replay_words::mark_length(text)..]);
    for (i, line) in lines.enumerate() {
        known = add_line(line, i as u64 + 1, slots, counters, items, known)?;
    }
    Ok(known)
}

// The verdict. A length that is wrong is told before a word is read, so that a run longer than what is lent for it is never cut.
fn verdict_of(known: Lengths, lent: &Table) -> Result<(), Broken>
    requires { Lent lent.now.slots.now lent.now.counters.now lent.now.items.now }
    ensures { Judged lent.now.slots.now lent.now.counters.now lent.now.items.now known result }
{
    let Lengths {
        slots,
        counters,
        items,
    } = known;
    if let Some(at) = inspecting::misshapen_run(slots, counters, items) {
        return Err(Broken {
            condition: Condition::Lengths,
            at,
        });
    }
    judging::judge(&Table {
        slots: &lent.slots[..slots],
        counters: &lent.counters[..counters],
        items: &lent.items[..items],
    })
}

// The line that is told of a dump.
fn put_told(dumped: Result<Lengths, Unclear>, lent: &Table, out: &mut [u8]) -> usize
    requires { Lent lent.now.slots.now lent.now.counters.now lent.now.items.now × (384 ≤ length out.old) }
    ensures { Told lent.now.slots.now lent.now.counters.now lent.now.items.now dumped out.old out.new result }
{
    match dumped {
        Ok(known) => replay_answers::put_judgement(out, 0, verdict_of(known, lent)),
        Err(Unclear { line, why }) => replay_answers::put_not_understood(out, 0, line, why),
    }
}

// What is told of the text of a dump, put into a buffer.
pub fn judge_text(
    text: &[u8],
    slots: &mut [u32],
    counters: &mut [u32],
    items: &mut [u64],
    out: &mut [u8],
) -> usize
    requires { Lent slots.old counters.old items.old × (384 ≤ length out.old) }
    ensures { Put (told (dump_of text.now)) 0 out.old out.new result × (result ≤ 384) }
{
    let dumped = read_dump(text, slots, counters, items);
    let lent = Table {
        slots,
        counters,
        items,
    };
    put_told(dumped, &lent, out)
}

// The line goes out. That it can't be written is not told.
fn hand_over<R: Print>(rt: &R, line: &[u8], text: &[u8])
    requires { line.now ≡ told (dump_of text.now) }
{
    let _ = rt.write_all(line);
}

// Judges a text, with the memory that is lent for its runs.
fn tell_in<R: Print>(
    rt: &R,
    text: &[u8],
    slots: &mut [u32],
    counters: &mut [u32],
    items: &mut [u64],
    out: &mut [u8],
)
    requires { Lent slots.old counters.old items.old × (384 ≤ length out.old) }
{
    let end = judge_text(text, slots, counters, items, out);
    hand_over(rt, &out[..end], text);
}

// As many item words as a table may have. It says nothing of its elements, so that no proof counts them.
fn item_words() -> [u64; 16384]
    ensures { 16384 ≡ length result }
{
    [0; 16384]
}

fn tell<R: Print>(rt: &R, text: &[u8]) {
    let mut slots = [0u32; 8192];
    let mut counters = [0u32; 1024];
    let mut items = item_words();
    let mut out = [0u8; 384];
    tell_in(rt, text, &mut slots, &mut counters, &mut items, &mut out);
}

// Judges the standard input, with the memory that it is lent for it, and gives 0; or 1: nothing is judged of more, or of what can't be read to its end.
pub fn run(rt: &HostRuntime, text: &mut [u8]) -> u8
    ensures { result ≤ 1 }
{
    let mut from = rt.stdin();
    let n = input::fill(&mut from, text).bytes;
    let mut more = [0u8; 1];
    match from.read(&mut more) {
        Ok(0) => {
            tell(rt, &text[..n]);
            0
        }
        Ok(_) if n == text.len() => {
            let _ = rt.write_all(b"too long\n");
            1
        }
        _ => {
            let _ = rt
                .stderr()
                .write_all(b"judge_dump: a read failed, nothing was judged\n");
            1
        }
    }
}
