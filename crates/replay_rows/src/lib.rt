// The replay program's language: its rows and what they mean stand in specs/. Here are the rows by name, what is asked of a row beside its meaning, and what a line's turn gives back.
#![tactic(auto)]

ghost use Rattle.std.specs.Prelude.{◌≡◌, ℕ, ◌+◌, ◌≤◌, List, Ok, length};
ghost use Rattle.buffer.specs.Put.{Put};
ghost use Rattle.replay_answers.specs.Text.{reason};
ghost use Rattle.replay_lines.specs.Reasons.{reason_number};
ghost use Rattle.replay_rows.specs.World.{World, Reply, longest_call};
ghost use Rattle.replay_rows.specs.Meaning.{meaning};
ghost use Rattle.replay_rows.specs.Loaded.{shown_load};
ghost use Rattle.replay_rows.specs.Rows.{Numbers, meaning_of};
ghost use Rattle.replay_rows.specs.declared.Row.TheVariants as rows;
ghost use Rattle.replay_rows.specs.Replayed.{language, shown, status as status_of};

use model::Numbered;
use replay_lines::Reason;

// The rows of the language, in its order.
#[derive(Clone, Copy, Debug, PartialEq, Eq)]
pub enum Row {
    Serve = 0,
    Read = 1,
    Set = 2,
    Delete = 3,
    Evict = 4,
    CutSet = 5,
    CutDelete = 6,
    CutEvict = 7,
    Hand = 8,
    List = 9,
    PokeSlots = 10,
    PokeCounters = 11,
    PokeItems = 12,
    Dump = 13,
    Fresh = 14,
    Plain = 15,
    Judge = 16,
    Plan = 17,
    Move = 18,
    Enter = 19,
    Blank = 20,
}

// A number that no row has.
#[derive(Clone, Copy, Debug, PartialEq, Eq)]
pub struct NoRow(pub usize);

impl TryFrom<usize> for Row {
    type Error = NoRow;

    ghost try_from_gives = { Numbers };

    fn try_from(number: usize) -> Result<Row, NoRow> {
        match number {
            0 => Ok(Row::Serve),
            1 => Ok(Row::Read),
            2 => Ok(Row::Set),
            3 => Ok(Row::Delete),
            4 => Ok(Row::Evict),
            5 => Ok(Row::CutSet),
            6 => Ok(Row::CutDelete),
            7 => Ok(Row::CutEvict),
            8 => Ok(Row::Hand),
            9 => Ok(Row::List),
            10 => Ok(Row::PokeSlots),
            11 => Ok(Row::PokeCounters),
            12 => Ok(Row::PokeItems),
            13 => Ok(Row::Dump),
            14 => Ok(Row::Fresh),
            15 => Ok(Row::Plain),
            16 => Ok(Row::Judge),
            17 => Ok(Row::Plan),
            18 => Ok(Row::Move),
            19 => Ok(Row::Enter),
            20 => Ok(Row::Blank),
            _ => Err(NoRow(number)),
        }
    }
}

// The reason of a number; above 3 it is told as 3.
#[tactic(auto, unfolding(replay_answers::specs::Text::reason))]
fn reason_of(number: u64) -> Reason
    ensures { reason (reason_number result) ≡ reason number }
{
    match number {
        0 => Reason::UnknownWord,
        1 => Reason::TooFew,
        2 => Reason::TooMany,
        _ => Reason::TooLarge,
    }
}

// What a line follows, as its caller has it: a row, or why it follows none; or the number of a row, and behind the last row the line's first
// number says why.
pub trait Followed: Copy {
    ghost means: { Self → ℕ → List ℕ → World → Reply };

    ghost IsFresh: { Self → Type 0 };

    fn row(self, numbers: &[u64; 8]) -> Result<Row, Reason>
        ensures meant { (n : ℕ) (w : World) → meaning_of result n numbers.now w ≡ means self n numbers.now w }
        ensures fresh { result ≡ Ok rows.Fresh → IsFresh self };
}

impl Followed for Result<Row, Reason> {
    ghost means = { meaning_of };

    ghost IsFresh = { λ follows. follows ≡ Ok rows.Fresh };

    fn row(self, _numbers: &[u64; 8]) -> Result<Row, Reason> {
        self
    }
}

impl Followed for usize {
    ghost means = { meaning };

    ghost IsFresh = { λ number. number ≡ 14 };

    fn row(self, numbers: &[u64; 8]) -> Result<Row, Reason> {
        match Row::try_from(self) {
            Ok(row) => Ok(row),
            Err(NoRow(_)) => Err(reason_of(numbers[0])),
        }
    }
}

// The position behind the answer, and the hand afterwards.
#[derive(Drop)]
pub struct Turn {
    pub next: usize,
    pub hand: usize,
}

// A line's number and call before its answer, if they are to be shown.
#[tactic(auto, unfolding(crate::specs::Replayed::shown))]
pub fn show_call(
    rows: &[u8],
    echo: bool,
    row: usize,
    numbers: &[u64],
    number: u64,
    out: &mut [u8],
    at: usize,
) -> usize
    requires { (rows.now ≡ language) × (at + longest_call ≤ length out.old) }
    ensures { Put (shown echo number row numbers.now) at out.old out.new result × (result ≤ at + longest_call) }
{
    if echo {
        replay_echo::put_echo(rows, row, numbers, number, out, at)
    } else {
        at
    }
}

// The same of a line of a dump: its run's name, and not the words again. A number that no run has shows nothing.
#[tactic(auto, unfolding(crate::specs::Loaded::shown_load))]
pub fn show_load<R: Numbered>(echo: bool, run: R, number: u64, out: &mut [u8], at: usize) -> usize
    requires { at + longest_call ≤ length out.old }
    ensures { Put (shown_load echo number (R.number run)) at out.old out.new result × (result ≤ at + longest_call) }
{
    if !echo {
        return at;
    }
    let lines = b"slots ..\ncounters ..\nitems ..\n";
    replay_echo::put_echo(lines, run.number() as usize, &[], number, out, at)
}

// The status of a replay: whether its answers could be written, and how many of its lines were not understood. A process ends with a number.
pub fn status(written: bool, missed: u64) -> u8
    ensures { result ≡ status_of written missed }
{
    match (written, missed) {
        (false, _) => 1,
        (true, 0) => 0,
        (true, _) => 2,
    }
}
