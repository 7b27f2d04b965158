// A line of a dump: which run it loads, and its words into a lent run. No input or output.
#![tactic(auto)]

ghost use Rattle.std.specs.Prelude.{◌≡◌};
ghost use Rattle.replay_words.specs.Words.{words};
ghost use Rattle.replay_loads.specs.Load.{run_named, run_number, top_of, weighed, loading};
ghost use Rattle.replay_loads.specs.Cursor.{Measures, PouredLine, named, numbered, weight};

use model::Numbered;
use replay_lines::Reason;
use replay_words::{RunWord, Words};

// The runs of a table.
#[derive(Clone, Copy, Debug, PartialEq, Eq)]
pub enum Run {
    Slots = 0,
    Counters = 1,
    Items = 2,
}

impl Numbered for Run {
    ghost number = { run_number };

    fn number(self) -> u64 {
        self as u64
    }
}

// The run that a word names, if it names one.
fn run_named(word: &[u8]) -> Option<Run>
    ensures { named result ≡ run_named word.now }
{
    if replay_words::is_word(word, b"slots") {
        return Some(Run::Slots);
    }
    if replay_words::is_word(word, b"counters") {
        return Some(Run::Counters);
    }
    if replay_words::is_word(word, b"items") {
        return Some(Run::Items);
    }
    None
}

// The largest word of a run.
fn top_of(run: Run) -> u64
    ensures { result ≡ top_of (run_number run) }
{
    match run {
        Run::Slots | Run::Counters => u32::LARGEST,
        Run::Items => u64::LARGEST,
    }
}

// How many words there are, each a number up to `top`; or why the first that is none is none.
fn weigh(line: Words, top: u64) -> Result<usize, Reason>
    ensures { numbered result ≡ weight (weighed top (words line.entry.0.now)) }
{
    let mut count: usize = 0;
    for word in line {
        match replay_words::number_of(word, top) {
            Some(_) => count += 1,
            None => return Err(replay_lines::instead(Some(top), word)),
        }
    }
    Ok(count)
}

// What a line is as one of a dump, three answers, so no Option: none; one that is not understood, and why; or the run that it loads, and how many words it has.
#[derive(Clone, Copy, Debug)]
pub enum Measured {
    Other,
    Faulty(Reason),
    Loads(Run, usize),
}

// The line is given without its LF.
pub fn measure(line: &[u8]) -> Measured
    ensures { Measures (loading line.now) result }
{
    let mut words = Words(replay_lines::body_of(line));
    let Some(name) = words.next() else {
        return Measured::Other;
    };
    let Some(run) = run_named(name) else {
        return Measured::Other;
    };
    match weigh(words, top_of(run)) {
        Ok(count) => Measured::Loads(run, count),
        Err(why) => Measured::Faulty(why),
    }
}

// The words of a line that loads a run, from the front on. The words of the run behind them stay; those beyond it are dropped.
pub fn pour<T: RunWord>(line: &[u8], run: &mut [T])
    ensures { PouredLine T.LARGEST line.now (T.numbers run.old) (T.numbers run.new) }
{
    let mut words = Words(replay_lines::body_of(line));
    let Some(_) = words.next() else {
        return;
    };
    for (i, word) in words.enumerate() {
        let Some(n) = replay_words::number_of(word, T::LARGEST) else {
            return;
        };
        replay_lines::store(run, i, T::of_number(n));
    }
}
