// The replay program's language: which row of a table a line follows, or why it follows none. No input or output.
#![tactic(auto)]

ghost use Rattle.std.specs.Prelude.{◌≡◌, length, set, None};
ghost use Rattle.replay_words.specs.Words.{lines, number, without_comment, without_return, words};
ghost use Rattle.replay_lines.specs.Taking.{alone, bound, taken, taken_up_to, takes as it_takes};
ghost use Rattle.replay_lines.specs.Reasons.{behind as behind_row, instead as instead_of, parting, parts, further as the_further, reason_number, why_not};
ghost use Rattle.replay_lines.specs.Line.{said_by, said};
ghost use Rattle.replay_lines.specs.Cursor.{told, Fits, Follows, Parts};

use model::Numbered;
use replay_words::{Lines, Words};

const LARGEST_PERMISSION: u64 = 4294967295;

const LARGEST_BUFFER: u64 = 81920;

// Why a line follows no row; it is shown in words.
#[derive(Clone, Copy, Debug, PartialEq, Eq)]
pub enum Reason {
    UnknownWord = 0,
    TooFew = 1,
    TooMany = 2,
    TooLarge = 3,
}

impl From<Reason> for u64 {
    ghost from_gives = { λ reason n. n ≡ reason_number reason };

    fn from(reason: Reason) -> u64 {
        reason as u64
    }
}

impl Numbered for Reason {
    ghost number = { reason_number };

    fn number(self) -> u64 {
        u64::from(self)
    }
}

// The largest number that a word of a row takes, if it takes one.
fn bound_of(wanted: &[u8]) -> Option<u64>
    ensures { result ≡ bound wanted.now }
{
    if replay_words::is_word(wanted, b"N") {
        return Some(u64::MAX);
    }
    if replay_words::is_word(wanted, b"P") {
        return Some(LARGEST_PERMISSION);
    }
    if replay_words::is_word(wanted, b"B") {
        return Some(LARGEST_BUFFER);
    }
    None
}

// What a word of a row takes from a word of a line: three answers, so no Option.
#[derive(Clone, Copy)]
enum Taken {
    No,
    Word,
    Number(u64),
}

fn take_number(word: &[u8], top: u64) -> Taken
    ensures { told result ≡ alone (number top word.now) }
{
    match replay_words::number_of(word, top) {
        Some(n) => Taken::Number(n),
        None => Taken::No,
    }
}

fn take_name(name: &[u8], word: &[u8]) -> Taken
    ensures { told result ≡ taken_up_to None name.now word.now }
{
    if replay_words::is_word(name, word) {
        return Taken::Word;
    }
    Taken::No
}

fn take_word(wanted: &[u8], word: &[u8]) -> Taken
    ensures { told result ≡ taken wanted.now word.now }
{
    match bound_of(wanted) {
        Some(top) => take_number(word, top),
        None => take_name(wanted, word),
    }
}

// Whether a word of a row fits a word of a line.
fn takes(wanted: &[u8], word: &[u8]) -> bool
    ensures { result ≡ it_takes wanted.now word.now }
{
    !matches!(take_word(wanted, word), Taken::No)
}

// What lies beyond the array is dropped.
pub fn store<T: Copy>(run: &mut [T], at: usize, x: T)
    ensures { run.new ≡ set run.old at x }
{
    if at < run.len() {
        run[at] = x;
    }
}

// Whether a line fits a row; then its numbers are stored from the front on.
fn fits(row: &[u8], line: &[u8], numbers: &mut [u64]) -> bool
    ensures { Fits row.now line.now numbers.old numbers.new result }
{
    let mut words = Words(line);
    let mut count: usize = 0;
    for wanted in Words(row) {
        let Some(word) = words.next() else {
            return false;
        };
        match take_word(wanted, word) {
            Taken::No => return false,
            Taken::Word => {}
            Taken::Number(n) => {
                store(numbers, count, n);
                count += 1;
            }
        }
    }
    words.next().is_none()
}

// Why a line goes on behind a row's end.
fn behind(word: &[u8]) -> Reason
    ensures { reason_number result ≡ behind_row word.now }
{
    if replay_words::all_digits(word) {
        return Reason::TooMany;
    }
    Reason::UnknownWord
}

// Why a row does not take a word, given the largest number that it would have taken.
pub fn instead(bound: Option<u64>, word: &[u8]) -> Reason
    ensures { reason_number result ≡ instead_of bound word.now }
{
    if bound.is_some() && replay_words::all_digits(word) {
        return Reason::TooLarge;
    }
    Reason::UnknownWord
}

// How many words of a line agree with a row, and what ends it there.
#[derive(Clone, Copy)]
struct Parting {
    far: usize,
    why: Reason,
}

fn part_from(row: &[u8], line: &[u8]) -> Parting
    ensures { Parts (parting 0 (words row.now) (words line.now)) result }
{
    let mut words = Words(line);
    let mut far: usize = 0;
    for wanted in Words(row) {
        let Some(word) = words.next() else {
            return Parting {
                far,
                why: Reason::TooFew,
            };
        };
        if !takes(wanted, word) {
            return Parting {
                far,
                why: instead(bound_of(wanted), word),
            };
        }
        far += 1;
    }
    let why = match words.next() {
        Some(word) => behind(word),
        None => Reason::TooMany,
    };
    Parting { far, why }
}

// The one that goes further, of equals the first.
fn further(a: Parting, b: Parting) -> Parting
    ensures { Parts (the_further (parts a.far (reason_number a.why)) (parts b.far (reason_number b.why))) result }
{
    if b.far <= a.far {
        return a;
    }
    b
}

// Why a line without comment and line end follows no row.
fn why_none(rows: &[u8], line: &[u8]) -> Reason
    ensures { reason_number result ≡ why_not (lines rows.now) (words line.now) }
{
    let mut best = Parting {
        far: 0,
        why: Reason::UnknownWord,
    };
    for row in Lines(rows) {
        best = further(best, part_from(row, line));
    }
    best.why
}

// The first row that a line without comment and line end fits.
fn row_in(rows: &[u8], line: &[u8], numbers: &mut [u64]) -> Result<usize, Reason>
    ensures { Follows (lines rows.now) (said_by (lines rows.now) (words line.now)) numbers.old numbers.new result }
{
    for (row, wanted) in Lines(rows).enumerate() {
        numbers.fill(0);
        if fits(wanted, line, numbers) {
            return Ok(row);
        }
    }
    numbers.fill(0);
    Err(why_none(rows, line))
}

// What a line says: it ends at a comment or a CR.
pub fn body_of(line: &[u8]) -> &[u8]
    ensures { result.now ≡ without_comment (without_return line.now) }
{
    let rest = line.strip_suffix(b"\r").unwrap_or(line);
    &rest[..replay_words::comment_start(rest)]
}

// Which row of a table a line follows, its bytes given without the LF, and the numbers in it; or why it follows none, with the numbers all 0.
pub fn row_of(rows: &[u8], line: &[u8], numbers: &mut [u64]) -> Result<usize, Reason>
    ensures { Follows (lines rows.now) (said rows.now line.now) numbers.old numbers.new result }
{
    row_in(rows, body_of(line), numbers)
}
