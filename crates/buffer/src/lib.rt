// Bytes into a lent buffer, from a position on; each gives the position behind them.
// The buffer and the position stay two parameters: a struct round a `&mut [u8]` needs a clause on its ghost name in each contract.
#![tactic(auto)]

ghost use Rattle.std.specs.Prelude.{◌+◌, ◌≤◌, length};
ghost use Rattle.model.specs.Hash.{bytes};
ghost use Rattle.buffer.specs.Put.{Put};

// A text.
pub fn put_bytes(buffer: &mut [u8], at: usize, text: &[u8]) -> usize
    requires { at + length text.now ≤ length buffer.old }
    ensures { Put text.now at buffer.old buffer.new result }
{
    let behind = at + text.len();
    buffer[at..behind].copy_from_slice(text);
    behind
}

// The N lowest bytes of a number, low byte first.
pub fn put_low<const N: usize>(buffer: &mut [u8], at: usize, x: u64) -> usize
    requires few { N ≤ 8 }
    requires room { at + N ≤ length buffer.old }
    ensures { Put (bytes N x) at buffer.old buffer.new result }
{
    put_bytes(buffer, at, &x.to_le_bytes()[..N])
}
