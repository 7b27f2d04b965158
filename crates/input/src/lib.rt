// Reads an input into memory that is lent for it.
#![tactic(auto)]

ghost use Rattle.std.specs.Prelude.{◌≡◌, ◌<◌, ◌≤◌, IsNone, length, take};
ghost use Rattle.std.specs.Io.KnownBytes.{Consumes, IsAtEnd};

use std::io::{self, Read};

// 65,536 zeros. It says nothing of its elements, so that no proof counts them.
pub fn large_buffer() -> [u8; 65536]
    ensures { 65536 ≡ length result }
{
    [0; 65536]
}

// How many bytes of an input stand at the start of the memory, and what the system said if a read failed: the bytes before it count too, so
// this is no Result.
#[derive(Drop)]
pub struct Filled {
    pub bytes: usize,
    pub failure: Option<io::Error>,
}

// Reads until the memory is full, the input ends or a read fails. The bytes are the next ones of the input.
pub fn fill<R: Read>(from: &mut R, text: &mut [u8]) -> Filled
    ensures in_bounds { result.bytes ≤ length text.new }
    ensures next_bytes { Consumes (R.remaining from.old) (R.remaining from.new) (take result.bytes text.new) }
    ensures ended { IsNone result.failure → result.bytes < length text.new → IsAtEnd (R.remaining from.new) }
{
    let mut done = 0;
    // No `for` is plainer: a read goes on by as many bytes as it gives.
    while done < text.len() {
        match from.read(&mut text[done..]) {
            Ok(0) => {
                return Filled {
                    bytes: done,
                    failure: None,
                };
            }
            Ok(n) => done += n,
            Err(failure) => {
                return Filled {
                    bytes: done,
                    failure: Some(failure),
                };
            }
        }
    }
    Filled {
        bytes: done,
        failure: None,
    }
}
