// The words and numbers of a line of the replay program. No input or output.
#![tactic(auto)]

ghost use Rattle.std.specs.Prelude.{ℕ, not, eqb, ◌≡◌, ◌+◌, ◌<◌, ◌≤◌, List, [], ◌∷◌, length, refl};
ghost use Rattle.std.specs.List.{prefix_len};
ghost use Rattle.std.specs.Iterator.{YieldsFirstRef, item_count};
ghost use Rattle.model.specs.Choice.{choose};
ghost use Rattle.replay_words.specs.Words.{is_end, is_comment, is_gap, is_no_gap, lines, mark_length, same, all_digits, number, signed, whole, negative, words};
ghost use Rattle.replay_words.specs.Cursor.{First, PieceAt, NextWord, Small};

// Where a line ends, and where the next one starts.
#[derive(Drop)]
pub struct Piece {
    pub end: usize,
    pub next: usize,
}

// How many bytes come before the first b.
fn count_before(text: &[u8], b: u8) -> usize
    ensures count { result ≡ prefix_len (λ x. not (eqb x b)) text.now }
    ensures inside { result ≤ length text.now }
{
    text.iter().take_while(|x| **x != b).count()
}

// The line from `from` on; its LF is not part of it. For one who goes on in the text later, and keeps the position.
pub fn piece_at(text: &[u8], from: usize) -> Piece
    requires { from < length text.now }
    ensures { PieceAt text.now from result }
{
    let end = from + count_before(&text[from..], b'\n');
    if end < text.len() {
        return Piece { end, next: end + 1 };
    }
    Piece { end, next: end }
}

// The lines of a text, each without its LF.
#[derive(Clone, Copy, Drop)]
pub struct Lines<'a>(pub &'a [u8]);

impl<'a> Iterator for Lines<'a> {
    type Item = &'a [u8];

    ghost next_gives = { YieldsFirstRef (λ s. lines s.0.now) };

    ghost remaining = { item_count (λ s. lines s.0.now) };

    fn next(&mut self) -> Option<&'a [u8]> {
        let text = self.0;
        if text.is_empty() {
            return None;
        }
        let Piece { end, next } = piece_at(text, 0);
        self.0 = &text[next..];
        Some(&text[..end])
    }
}

// The length of a text's byte order mark.
pub fn mark_length(text: &[u8]) -> usize
    ensures { (result ≡ mark_length text.now) × (result ≤ length text.now) }
{
    if text.starts_with(&[239, 187, 191]) {
        return 3;
    }
    0
}

// The first comment sign, or the length.
pub fn comment_start(text: &[u8]) -> usize
    ensures { First is_comment text.now 0 result }
{
    count_before(text, b'#')
}

fn is_gap(b: u8) -> bool
    ensures { result ≡ is_gap b }
{
    b == b' ' || b == b'\t'
}

// Where a word of a line starts and ends; it is empty if there is none.
#[derive(Drop)]
pub struct Word {
    pub start: usize,
    pub end: usize,
}

// How many bytes come before the first word.
fn word_start(line: &[u8]) -> usize
    ensures count { result ≡ prefix_len is_gap line.now }
    ensures inside { result ≤ length line.now }
{
    line.iter().take_while(|b| is_gap(**b)).count()
}

// How many bytes come before the first gap.
fn word_end(line: &[u8]) -> usize
    ensures count { result ≡ prefix_len is_no_gap line.now }
    ensures inside { result ≤ length line.now }
{
    line.iter().take_while(|b| !is_gap(**b)).count()
}

// The next word from `at` on.
pub fn next_word(line: &[u8], at: usize) -> Word
    requires { at ≤ length line.now }
    ensures { NextWord line.now at result }
{
    let start = at + word_start(&line[at..]);
    let end = start + word_end(&line[start..]);
    Word { start, end }
}

// The words of a line.
#[derive(Clone, Copy, Drop)]
pub struct Words<'a>(pub &'a [u8]);

impl<'a> Iterator for Words<'a> {
    type Item = &'a [u8];

    ghost next_gives = { YieldsFirstRef (λ s. words s.0.now) };

    ghost remaining = { item_count (λ s. words s.0.now) };

    fn next(&mut self) -> Option<&'a [u8]> {
        let line = self.0;
        let Word { start, end } = next_word(line, 0);
        if start == end {
            return None;
        }
        self.0 = &line[end..];
        Some(&line[start..end])
    }
}

// Whether a word is a name.
pub fn is_word(word: &[u8], name: &[u8]) -> bool
    ensures { result ≡ same word.now name.now }
{
    word == name
}

// Whether a word has digits only.
pub fn all_digits(word: &[u8]) -> bool
    ensures { result ≡ all_digits word.now }
{
    word.iter().all(|b| b.is_ascii_digit())
}

// The number of a word of decimal digits, if it is at most `top`.
pub fn number_of(word: &[u8], top: u64) -> Option<u64>
    ensures { result ≡ number top word.now }
{
    if word.is_empty() {
        return None;
    }
    let mut v: u64 = 0;
    for b in word {
        if !b.is_ascii_digit() {
            return None;
        }
        let d = u64::from(*b - b'0');
        v = v.checked_mul(10)?.checked_add(d)?;
        if top < v {
            return None;
        }
    }
    Some(v)
}

// A number of that size, below zero if there was a minus.
fn with_sign(size: Option<u64>, minus: bool) -> Option<i64>
    requires { Small size }
    ensures { result ≡ choose minus (negative size) (whole size) }
{
    let z = size? as i64;
    if minus {
        return Some(-z);
    }
    Some(z)
}

// The number of a word of decimal digits, with a minus before a negative one, if its size is at most `top`, which fits the type.
pub fn signed_of(word: &[u8], top: u64) -> Option<i64>
    requires { top < 9223372036854775808 }
    ensures { result ≡ signed top word.now }
{
    match word.strip_prefix(b"-") {
        Some(size) => with_sign(number_of(size, top), true),
        None => with_sign(number_of(word, top), false),
    }
}

// A word of a run, of 32 bits in slots and counters and of 64 in items, and the number that a line shows it as.
pub trait RunWord: Copy {
    ghost number: { Self → ℕ };

    ghost numbers: { List Self → List ℕ };

    ghost LARGEST: { ℕ };

    const LARGEST: u64;

    fn number(self) -> u64
        ensures { result ≡ number self };

    fn of_number(n: u64) -> Self
        requires { n ≤ LARGEST }
        ensures { number result ≡ n };

    ghost of_none: { numbers [] ≡ [] };

    ghost of_more: { (x : Self) (xs : List Self) → numbers (x ∷ xs) ≡ number x ∷ numbers xs };
}

impl RunWord for u32 {
    ghost number = { λ n. n };

    ghost numbers = { λ ns. ns };

    ghost LARGEST = { 4294967295 };

    const LARGEST: u64 = 4294967295;

    ghost of_none = { refl };

    ghost of_more = { λ x xs. refl };

    fn number(self) -> u64 {
        u64::from(self)
    }

    fn of_number(n: u64) -> u32 {
        n as u32
    }
}

impl RunWord for u64 {
    ghost number = { λ n. n };

    ghost numbers = { λ ns. ns };

    ghost LARGEST = { 18446744073709551615 };

    const LARGEST: u64 = 18446744073709551615;

    ghost of_none = { refl };

    ghost of_more = { λ x xs. refl };

    fn number(self) -> u64 {
        self
    }

    fn of_number(n: u64) -> u64 {
        n
    }
}
