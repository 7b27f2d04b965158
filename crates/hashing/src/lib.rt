// From an animal's number to its tag, its two buckets and its counter; and the test of the three lengths.
// The number of buckets stays a number, with `Size n` in each contract: docs/STATEMENTS names these functions, so none may take a narrower type.
#![tactic(auto)]

ghost use Rattle.std.specs.Prelude.{◌≡◌, ◌*◌, ◌%◌, ◌^◌, ◌<◌, min};
ghost use Rattle.model.specs.Hash.{fnv_step, hash, tag_from, Size, spread, other_bucket};
ghost use Rattle.model.specs.Shape.{good_counters, good_items, good_lengths, good_slots, four};
ghost use Rattle.hashing.specs.Homes.{HomesAre};

// h times p, kept modulo 2^32. Document 01 wants a helper of the program's own here.
pub fn mul_mod_2_32(h: u32, p: u32) -> u32
    ensures { result ≡ (h * p) % 2 ^ 32 }
{
    (u64::from(h) * u64::from(p) % 4294967296) as u32
}

// One byte of FNV-1a.
pub fn fnv_byte(h: u32, b: u8) -> u32
    ensures { result ≡ fnv_step h b }
{
    mul_mod_2_32(h ^ u32::from(b), 16777619)
}

// FNV-1a over the eight bytes of an animal number, lowest first. Each step waits for the one before; but a byte of 0 only multiplies by the prime, so four or two of them on top are one product, by its power modulo 2^32.
pub fn hash_of(animal: u64) -> u32
    ensures { result ≡ hash animal }
{
    let bytes = animal.to_le_bytes();
    let h1 = fnv_byte(2166136261, bytes[0]);
    let h2 = fnv_byte(h1, bytes[1]);
    let h3 = fnv_byte(h2, bytes[2]);
    let h4 = fnv_byte(h3, bytes[3]);
    let upper = animal / 4294967296;
    if upper == 0 {
        return mul_mod_2_32(h4, 1345077009);
    }
    let h5 = fnv_byte(h4, bytes[4]);
    let h6 = fnv_byte(h5, bytes[5]);
    if upper < 65536 {
        return mul_mod_2_32(h6, 637696617);
    }
    let h7 = fnv_byte(h6, bytes[6]);
    fnv_byte(h7, bytes[7])
}

// The tag of a hash.
pub fn tag_of(h: u32) -> u32
    ensures { (result ≡ tag_from h) × (result < 256) }
{
    (h / 16777216).max(1)
}

// A remainder by a power of two needs no division.
pub fn low_part(x: u32, n: u32) -> u32
    requires { Size n }
    ensures { result ≡ x % n }
{
    x & (n - 1)
}

// The spread of a tag among n buckets.
pub fn spread_of(tag: u32, n: u32) -> u32
    requires { Size n }
    ensures { result ≡ spread n tag }
{
    low_part(mul_mod_2_32(tag, 1540483477), n) | 1
}

// The other bucket of an entry with a tag in bucket b.
pub fn other_of(b: u32, tag: u32, n: u32) -> u32
    requires { Size n }
    ensures { result ≡ other_bucket n tag b }
{
    b ^ spread_of(tag, n)
}

// The counter of an entry with a tag in bucket b.
pub fn counter_at(b: u32, tag: u32, n: u32, v: u32) -> u32
    requires { Size n × (0 < v) }
    ensures { result ≡ min b (other_bucket n tag b) % v }
{
    b.min(other_of(b, tag, n)) % v
}

// The counter of an entry whose lesser bucket is b. With as many counters as buckets it is b itself, and a division is saved.
fn counter_of(b: u32, n: u32, v: u32) -> u32
    requires { (b < n) × (0 < v) }
    ensures { result ≡ b % v }
{
    if n <= v {
        return b;
    }
    b % v
}

// An animal's tag, first bucket, other bucket and counter.
#[derive(Clone, Copy)]
pub struct Homes {
    pub tag: u32,
    pub first: u32,
    pub second: u32,
    pub counter: u32,
}

pub fn homes_of(animal: u64, n: u32, v: u32) -> Homes
    requires { Size n × (0 < v) }
    ensures { HomesAre n v animal result }
{
    let h = hash_of(animal);
    let tag = tag_of(h);
    let first = low_part(h, n);
    let second = other_of(first, tag, n);
    let counter = counter_of(first.min(second), n, v);
    Homes {
        tag,
        first,
        second,
        counter,
    }
}

// A slots run is good if its length has one bit set, as document 01 wants it tested, and is 8 to 8,192. Both tests eagerly: behind `&&` the
// compiler spreads the tests of the lengths, and a read takes 10 instructions more.
pub fn good_slots_length(s: usize) -> bool
    ensures { result ≡ good_slots four s }
{
    (8..=8192).contains(&s) & (s.count_ones() == 1)
}

// There are 1 to 1,024 counters.
pub fn good_counters_length(v: usize) -> bool
    ensures { result ≡ good_counters v }
{
    (1..=1024).contains(&v)
}

// The items are whole places, 1 to 4,096 of them.
pub fn good_items_length(i: usize) -> bool
    ensures { result ≡ good_items i }
{
    (i % 4 == 0) & (4..=16384).contains(&i)
}

// The three lengths are those of a table.
pub fn lengths_are_good(s: usize, v: usize, i: usize) -> bool
    ensures { result ≡ good_lengths four s v i }
{
    good_slots_length(s) & (good_counters_length(v) & good_items_length(i))
}
