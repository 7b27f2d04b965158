// The words of an animal's home slots: damage, the words with its tag, the hit.
#![tactic(auto)]

ghost use Rattle.std.specs.Prelude.{◌≡◌, false, eqb, ◌+◌, ◌*◌, ◌/◌, ◌<◌, ◌≤◌, length};
ghost use Rattle.model.specs.Choice.{any, choose, first};
ghost use Rattle.model.specs.Memory.{damaged};
ghost use Rattle.home_words.specs.HomeWords.{home_words, leads, tag_sum};

// The words of the eight home slots, first bucket first. Requires the buckets to lie in the run: the reader's hot path then has no bounds check.
pub fn home_words_of(slots: &[u32], first: u32, second: u32) -> [u32; 8]
    requires { (first * 4 + 4 ≤ length slots.now) × (second * 4 + 4 ≤ length slots.now) }
    ensures { result ≡ home_words 4 slots.now first second }
{
    let x = (first as usize) * 4;
    let y = (second as usize) * 4;
    [
        slots[x],
        slots[x + 1],
        slots[x + 2],
        slots[x + 3],
        slots[y],
        slots[y + 1],
        slots[y + 2],
        slots[y + 3],
    ]
}

// Refusal 4 looks at all eight words: eagerly, since an `any`, which leaves at the first damaged word, was tried, and takes a read a third
// more instructions, beyond its target.
pub fn any_damaged(words: [u32; 8], m: u32) -> bool
    ensures { result ≡ any (damaged m) words }
{
    words
        .iter()
        .fold(false, |bad, w| bad | runs::is_damaged(*w, m))
}

// The word if it has the tag, else 0.
fn with_tag(w: u32, tag: u32) -> u32
    requires { tag < 256 }
    ensures { (result ≡ choose (eqb (w / 65536) tag) w 0) × (result < 16777216) }
{
    if w / 65536 == tag { w } else { 0 }
}

// The sum of the words with the tag: where one word has it, the sum is that word.
pub fn sum_with_tag(words: [u32; 8], tag: u32) -> u32
    requires { tag < 256 }
    ensures { result ≡ tag_sum tag words }
{
    words.iter().map(|w| with_tag(*w, tag)).sum()
}

// The word has the tag, and its place holds the animal's number.
fn leads(items: &[u64], w: u32, tag: u32, animal: u64) -> bool
    ensures { result ≡ leads items.now tag animal w }
{
    w / 65536 == tag && runs::word_or(items, 4 * ((w % 65536) as usize), 0) == animal
}

// Slot by slot: the way of a look where two words or more share the tag.
#[cold]
#[inline(never)]
pub fn hit_by_slots(items: &[u64], words: [u32; 8], tag: u32, animal: u64) -> Option<u32>
    requires { 1 ≤ tag }
    ensures { result ≡ first (leads items.now tag animal) words }
{
    words
        .iter()
        .copied()
        .find(|w| leads(items, *w, tag, animal))
}

// The word of the hit. The sum says whether one word has the tag, and then which.
#[inline(always)]
pub fn hit_word(items: &[u64], words: [u32; 8], tag: u32, animal: u64, sum: u32) -> Option<u32>
    requires summed { (1 ≤ tag) × (sum ≡ tag_sum tag words) }
    requires sound { any (damaged (length items.now / 4)) words ≡ false }
    ensures { result ≡ first (leads items.now tag animal) words }
{
    if sum == 0 {
        return None;
    }
    if sum / 65536 == tag {
        return (items[4 * ((sum % 65536) as usize)] == animal).then_some(sum);
    }
    hit_by_slots(items, words, tag, animal)
}
