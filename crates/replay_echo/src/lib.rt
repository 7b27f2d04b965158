// A line's number and its call as it was understood, which `--echo` shows before the answer. Each function writes from `at` on and gives the position behind.
// The buffer and the position stay two parameters, as in `buffer`.
#![tactic(auto)]

ghost use Rattle.std.specs.Prelude.{◌≡◌, [], ◌+◌, ◌*◌, ◌<◌, ◌≤◌, length, get_or};
ghost use Rattle.buffer.specs.Put.{Put};
ghost use Rattle.replay_words.specs.Words.{lines};
ghost use Rattle.replay_echo.specs.Echo.{filled_in, echo};
ghost use Rattle.replay_echo.specs.Placed.{One};

use replay_words::Lines;

// The position behind what was put, and the number that comes next.
#[derive(Clone, Copy)]
struct Filled {
    next: usize,
    index: usize,
}

// A byte of a row; a capital stands for a number.
fn put_one(b: u8, numbers: &[u64], index: usize, out: &mut [u8], at: usize) -> Filled
    requires { (at + 20 ≤ length out.old) × (index < 18446744073709551615) }
    ensures { One numbers.now index b at out.old out.new result }
{
    if b.is_ascii_uppercase() {
        let n = runs::word_or(numbers, index, 0);
        return Filled {
            next: replay_print::put_decimal(out, at, n),
            index: index + 1,
        };
    }
    out[at] = b;
    Filled {
        next: at + 1,
        index,
    }
}

// A row with the numbers of a line in the places of its capitals.
fn put_call(row: &[u8], numbers: &[u64], out: &mut [u8], at: usize) -> usize
    requires { at + 20 * length row.now ≤ length out.old }
    ensures { Put (filled_in numbers.now 0 row.now) at out.old out.new result × (result ≤ at + 20 * length row.now) }
{
    let mut here = Filled { next: at, index: 0 };
    for b in row {
        here = put_one(*b, numbers, here.index, out, here.next);
    }
    here.next
}

// Row `row` of a table, counted from 0; nothing if there are not so many.
fn row_at(rows: &[u8], row: usize) -> &[u8]
    ensures { result.now ≡ get_or (lines rows.now) row [] }
{
    Lines(rows).nth(row).unwrap_or(&[])
}

// Line `number` and its call, by the row of a table that it follows; nothing for a blank row, or for none.
pub fn put_echo(
    rows: &[u8],
    row: usize,
    numbers: &[u64],
    number: u64,
    out: &mut [u8],
    at: usize,
) -> usize
    requires { at + 26 + 20 * length rows.now ≤ length out.old }
    ensures { Put (echo number (get_or (lines rows.now) row []) numbers.now) at out.old out.new result
        × (result ≤ at + 26 + 20 * length rows.now) }
{
    let call = row_at(rows, row);
    if call.is_empty() {
        return at;
    }
    let behind_number = replay_print::put_decimal(out, at, number);
    let behind_colon = buffer::put_bytes(out, behind_number, b": ");
    let behind_call = put_call(call, numbers, out, behind_colon);
    buffer::put_bytes(out, behind_call, b" -> ")
}
