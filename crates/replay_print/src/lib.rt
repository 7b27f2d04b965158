// What the replay program prints, in bytes: numbers, lines of words and numbers, records. Each function writes from `at` on and gives the position behind.
// By hand and not by `format!`, which allocates: the program has no heap. Buffer and position stay two parameters, as in `buffer`.
#![tactic(auto)]

ghost use Rattle.std.specs.Prelude.{◌≡◌, ◌+◌, ◌*◌, ◌%◌, ◌<◌, ◌≤◌, [], length};
ghost use Rattle.buffer.specs.Put.{Put};
ghost use Rattle.replay_print.specs.Print.{decimal_of, signed_of, hex_digit, hex_of, line, numbered, told, signed_line, hexes, record_lines};

use replay_words::RunWord;

// The last decimal digit of a number.
fn digit(x: u64) -> u8
    ensures { result ≡ 48 + x % 10 }
{
    b'0' + (x % 10) as u8
}

// The digits of a number from `at` on; the position behind them. They come last digit first, so they are collected from the end:
// no range or chain gives how many there are.
pub fn put_decimal(buffer: &mut [u8], at: usize, x: u64) -> usize
    requires { at + 20 ≤ length buffer.old }
    ensures { Put (decimal_of x) at buffer.old buffer.new result × (result ≤ at + 20) }
{
    let mut digits = [0u8; 20];
    let mut rest = x;
    let mut n: usize = 0;
    while 10 <= rest {
        let place = 19 - n;
        digits[place] = digit(rest);
        rest = rest / 10;
        n += 1;
    }
    let first = 19 - n;
    digits[first] = digit(rest);
    buffer::put_bytes(buffer, at, &digits[first..])
}

// A signed number from `at` on; the position behind it.
fn put_signed(buffer: &mut [u8], at: usize, z: i64) -> usize
    requires { at + 21 ≤ length buffer.old }
    ensures { Put (signed_of z) at buffer.old buffer.new result × (result ≤ at + 21) }
{
    let size = z.unsigned_abs();
    if z < 0 {
        let behind = buffer::put_bytes(buffer, at, b"-");
        return put_decimal(buffer, behind, size);
    }
    put_decimal(buffer, at, size)
}

// `char::from_digit` would give a character to turn into a byte: no plainer.
fn hex_digit(n: u8) -> u8
    requires { n < 16 }
    ensures { result ≡ hex_digit n }
{
    if n < 10 {
        return b'0' + n;
    }
    b'a' + (n - 10)
}

// The two hexadecimal digits of a byte from `at` on; the position behind them.
pub fn put_hex_byte(buffer: &mut [u8], at: usize, b: u8) -> usize
    requires { at + 2 ≤ length buffer.old }
    ensures { Put (hex_of b) at buffer.old buffer.new result × (result ≡ at + 2) }
{
    buffer[at] = hex_digit(b / 16);
    buffer[at + 1] = hex_digit(b % 16);
    at + 2
}

// Words and the line's end.
pub fn put_line(buffer: &mut [u8], at: usize, words: &[u8]) -> usize
    requires { at + length words.now + 1 ≤ length buffer.old }
    ensures { Put (line words.now) at buffer.old buffer.new result }
{
    let behind = buffer::put_bytes(buffer, at, words);
    buffer::put_bytes(buffer, behind, b"\n")
}

// A word, a space and a number.
pub fn put_numbered(buffer: &mut [u8], at: usize, word: &[u8], n: u64) -> usize
    requires { at + length word.now + 21 ≤ length buffer.old }
    ensures { Put (numbered word.now n) at buffer.old buffer.new result × (result ≤ at + length word.now + 21) }
{
    let behind_word = buffer::put_bytes(buffer, at, word);
    let behind_space = buffer::put_bytes(buffer, behind_word, b" ");
    put_decimal(buffer, behind_space, n)
}

// Numbers behind a word, each with its space, and the line's end.
fn put_numbers<T: RunWord>(buffer: &mut [u8], at: usize, numbers: &[T]) -> usize
    requires { at + 21 * length numbers.now + 1 ≤ length buffer.old }
    ensures { Put (told [] (T.numbers numbers.now)) at buffer.old buffer.new result × (result ≤ at + 21 * length numbers.now + 1) }
{
    let mut next = at;
    for n in numbers {
        next = put_numbered(buffer, next, b"", n.number());
    }
    put_line(buffer, next, b"")
}

// A line of a word and its numbers.
pub fn put_told<T: RunWord>(buffer: &mut [u8], at: usize, word: &[u8], numbers: &[T]) -> usize
    requires { at + length word.now + 21 * length numbers.now + 1 ≤ length buffer.old }
    ensures { Put (told word.now (T.numbers numbers.now)) at buffer.old buffer.new result
        × (result ≤ at + length word.now + 21 * length numbers.now + 1) }
{
    let behind = buffer::put_bytes(buffer, at, word);
    put_numbers(buffer, behind, numbers)
}

// A line of words and a signed number.
pub fn put_signed_line(buffer: &mut [u8], at: usize, words: &[u8], z: i64) -> usize
    requires { at + length words.now + 23 ≤ length buffer.old }
    ensures { Put (signed_line words.now z) at buffer.old buffer.new result × (result ≤ at + length words.now + 23) }
{
    let behind_words = buffer::put_bytes(buffer, at, words);
    let behind_space = buffer::put_bytes(buffer, behind_words, b" ");
    let behind = put_signed(buffer, behind_space, z);
    put_line(buffer, behind, b"")
}

// The bytes of a record, two digits each, on a line.
fn put_record(buffer: &mut [u8], at: usize, bytes: &[u8]) -> usize
    requires { at + 2 * length bytes.now + 1 ≤ length buffer.old }
    ensures put { Put (line (hexes bytes.now)) at buffer.old buffer.new result }
    ensures value { result ≡ at + 2 * length bytes.now + 1 }
{
    let mut next = at;
    for b in bytes {
        next = put_hex_byte(buffer, next, *b);
    }
    put_line(buffer, next, b"")
}

// The first n records of 20 bytes, a line each.
pub fn put_records(buffer: &mut [u8], at: usize, n: usize, records: &[u8]) -> usize
    requires n_in_bounds { 20 * n ≤ length records.now }
    requires n_in_bounds_2 { at + 41 * n ≤ length buffer.old }
    ensures { Put (record_lines n records.now) at buffer.old buffer.new result × (result ≤ at + 41 * n) }
{
    let mut next = at;
    for i in 0..n {
        let from = 20 * i;
        let end = from + 20;
        next = put_record(buffer, next, &records[from..end]);
    }
    next
}
