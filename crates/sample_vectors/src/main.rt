// Document 01's examples that no statement proves, the published FNV-1a vectors, and signed numbers read and printed: each on a line of
// its own.
#![tactic(auto)]

ghost use Rattle.std.specs.Prelude.{ℕ, ◌≡◌, ◌≤◌, length};
ghost use Rattle.model.specs.Hash.{fnv};

use model::{Grant, Table};
use places::Hand;

// Animal 1 with permission 5, issued at minute 2.
const GRANT: Grant = Grant {
    animal: 1,
    permission: 5,
    issued: 2,
    minute: 2,
};

// Twice as many slots as a table may have. It says nothing of its elements, so that no proof counts them; nor do the next two.
fn too_many_slots() -> [u32; 16384] {
    [0; 16384]
}

// The slots of the largest table.
fn most_slots() -> [u32; 8192] {
    [0; 8192]
}

// The item words of the largest table: 4,096 places.
fn most_items() -> [u64; 16384] {
    [0; 16384]
}

fn say(rt: &HostRuntime, words: &[u8]) {
    let _ = rt.write_all(words);
}

// What `put` puts into a buffer goes out; it gives the position behind it.
fn say_put<F: FnOnce(&mut [u8]) -> usize>(rt: &HostRuntime, put: F)
    requires callable { (line : _) → length line.now ≡ 384 → F.pre put line }
    requires inside { (line : _) (n : ℕ) (after : _) → F.post put line n after → n ≤ 384 }
{
    let mut line = [0u8; 384];
    let n = put(&mut line);
    say(rt, &line[..n]);
}

// FNV-1a over some bytes, by the step that the hash of an animal is made of.
fn fnv_of(text: &[u8]) -> u32
    ensures { result ≡ fnv 2166136261 text.now }
{
    text.iter()
        .fold(2166136261, |h, b| hashing::fnv_byte(h, *b))
}

// A text and its hash, highest byte first.
fn say_fnv(rt: &HostRuntime, text: &[u8]) {
    say(rt, b"FNV-1a of \"");
    say(rt, text);
    say(rt, b"\": ");
    for b in fnv_of(text).to_be_bytes() {
        say_put(rt, |line| replay_print::put_hex_byte(line, 0, b));
    }
    say(rt, b"\n");
}

// A word is read as a signed number of at most 2^62, and printed.
fn say_signed(rt: &HostRuntime, word: &[u8]) {
    say(rt, b"signed \"");
    say(rt, word);
    say(rt, b"\":");
    match replay_words::signed_of(word, 4611686018427387904) {
        Some(z) => say_put(rt, |line| replay_print::put_signed_line(line, 0, b"", z)),
        None => say(rt, b" no number\n"),
    }
}

// Slots length 16,384 is refusal 1, and 8,192 is good.
fn lengths(rt: &HostRuntime) {
    let mut more = too_many_slots();
    let mut slots = most_slots();
    let mut counters = [0u32; 1024];
    let mut items = most_items();
    say(rt, b"slots length 16384: ");
    let said = starting::fresh(&mut more, &mut counters, &mut items);
    say_put(rt, |line| replay_answers::put_starting(line, 0, said));
    say(rt, b"slots length 8192: ");
    let said = starting::fresh(&mut slots, &mut counters, &mut items);
    say_put(rt, |line| replay_answers::put_starting(line, 0, said));
}

// The whole list of a table with one animal: 20 bytes. The buffer is not zero before.
fn one_record(rt: &HostRuntime) {
    let mut slots = [0u32; 8];
    let mut counters = [0u32; 1];
    let mut items = [0u64; 4];
    let mut record = [255u8; 20];
    let _ = starting::fresh(&mut slots, &mut counters, &mut items);
    let _ = setting::set(&mut slots, &mut counters, &mut items, GRANT);
    let table = Table {
        slots: &slots,
        counters: &counters,
        items: &items,
    };
    let _ = listing::list(&table, &mut record);
    say(rt, b"list of animal 1, permission 5, stamp 2: ");
    say_put(rt, |line| replay_print::put_records(line, 0, 1, &record));
}

// The runs go in one by one: they are stored to between two reads.
fn say_read(rt: &HostRuntime, slots: &[u32], counters: &[u32], items: &[u64]) {
    let table = Table {
        slots,
        counters,
        items,
    };
    say(rt, b"4096 places, read 1: ");
    let said = reading::read(&table, 1, 720, 2);
    say_put(rt, |line| replay_answers::put_reading(line, 0, said));
}

// The victim, the places looked at and the hand.
fn say_evict(
    rt: &HostRuntime,
    slots: &mut [u32; 8192],
    counters: &mut [u32; 1024],
    items: &mut [u64; 16384],
) {
    say(rt, b"4096 places, evict with hand 1: ");
    let turned = evicting::evict(slots, counters, items, Hand { at: 1 });
    let said = turned.answer;
    let hand = turned.hand.at as u64;
    say_put(rt, |line| replay_answers::put_evicting(line, 0, said, hand));
}

// The largest table with one animal, at place 0: the hand goes around from place 1, clears it, and takes it at the 8,192nd look.
fn largest(rt: &HostRuntime) {
    let mut slots = most_slots();
    let mut counters = [0u32; 1024];
    let mut items = most_items();
    say(rt, b"4096 places: ");
    let said = starting::fresh(&mut slots, &mut counters, &mut items);
    say_put(rt, |line| replay_answers::put_starting(line, 0, said));
    say(rt, b"4096 places, set 1: ");
    let said = setting::set(&mut slots, &mut counters, &mut items, GRANT);
    say_put(rt, |line| replay_answers::put_setting(line, 0, said));
    say_read(rt, &slots, &counters, &items);
    say_evict(rt, &mut slots, &mut counters, &mut items);
    say_read(rt, &slots, &counters, &items);
}

fn main(rt: HostRuntime) {
    lengths(&rt);
    one_record(&rt);
    for text in [b"".as_slice(), b"a", b"b", b"foo", b"foobar"] {
        say_fnv(&rt, text);
    }
    largest(&rt);
    for word in [
        b"720".as_slice(),
        b"0",
        b"-1",
        b"-0",
        b"-4611686018427387904",
        b"-4611686018427387905",
        b"+1",
        b"-",
    ] {
        say_signed(&rt, word);
    }
}
