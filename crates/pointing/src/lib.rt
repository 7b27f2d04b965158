// Conditions 4, 5 and 6 of wish 5: slots and the places they point to. 5 and 6 look at an animal's home slots only, so that the time is linear.
#![tactic(auto)]

ghost use Rattle.std.specs.Prelude.{◌≡◌, true, ◌+◌, ◌*◌, ◌/◌, ◌<◌, length};
ghost use Rattle.model.specs.Choice.{any, first, range};
ghost use Rattle.model.specs.Memory.{place};
ghost use Rattle.model.specs.Seen.{seen};
ghost use Rattle.model.specs.Shape.{four, right_lengths, shape_of};
ghost use Rattle.judgement.specs.Conditions.{count, names, twin, is_stray, is_unsought, is_doubled};
ghost use Rattle.pointing.specs.Known.{Aimed, Sought};

use model::Table;

fn is_stray_slot(table: &Table, i: usize) -> bool
    requires { (right_lengths four (seen table.now) ≡ true) × (i < length table.now.slots.now) }
    ensures { result ≡ is_stray (shape_of four (seen table.now)) (seen table.now) i }
{
    let w = table.slots[i];
    if w == 0 {
        return false;
    }
    let x = runs::word_or(table.items, 4 * ((w % 65536) as usize), 0);
    if x == 0 {
        return true;
    }
    let h = looking::homes_in(table, x);
    let b = (i / 4) as u32;
    !((w / 65536 == h.tag) & ((b == h.first) | (b == h.second)))
}

// 4: the lowest occupied slot that is not right for its place.
pub fn stray_slot(table: &Table) -> Option<usize>
    requires { right_lengths four (seen table.now) ≡ true }
    ensures { result ≡ first (is_stray (shape_of four (seen table.now)) (seen table.now)) (range 0 (length table.now.slots.now)) }
{
    (0..table.slots.len()).find(|&i| is_stray_slot(table, i))
}

// The word is occupied and points to place p.
fn points_to(w: u32, p: u32) -> bool
    ensures { result ≡ names p w }
{
    (w != 0) & (w % 65536 == p)
}

// How many of eight words point to place p: a sum and no `filter`, as nothing foretells which of them does.
fn pointers(words: [u32; 8], p: u32) -> u32
    ensures { result ≡ count (names p) words }
{
    words
        .iter()
        .map(|w| if points_to(*w, p) { 1 } else { 0 })
        .sum()
}

// Where every occupied slot is right for its place, all slots that point to a live place are home slots of its animal.
fn is_unsought_place(table: &Table, p: usize) -> bool
    requires { Aimed (seen table.now) × (4 * p + 3 < length table.now.items.now) }
    ensures { result ≡ is_unsought (shape_of four (seen table.now)) (seen table.now) p }
{
    let x = table.items[4 * p];
    if x == 0 {
        return false;
    }
    let h = looking::homes_in(table, x);
    let words = home_words::home_words_of(table.slots, h.first, h.second);
    pointers(words, p as u32) != 1
}

// 5: the lowest live place that no slot points to, or several do.
pub fn unsought_place(table: &Table) -> Option<usize>
    requires { Aimed (seen table.now) }
    ensures { result ≡ first (is_unsought (shape_of four (seen table.now)) (seen table.now)) (range 0 (length table.now.items.now / 4)) }
{
    (0..table.items.len() / 4).find(|&p| is_unsought_place(table, p))
}

// The word leads to another place than p that holds animal x.
fn leads_to_twin(items: &[u64], w: u32, p: u32, x: u64) -> bool
    ensures { result ≡ twin items.now x p (place w) }
{
    let y = runs::word_or(items, 4 * ((w % 65536) as usize), 0);
    (w % 65536 != p) & (y == x)
}

// One of the eight words does: eagerly, as nothing foretells where an `any` would leave.
fn twin_among(items: &[u64], words: [u32; 8], p: u32, x: u64) -> bool
    ensures { result ≡ any (λ w. twin items.now x p (place w)) words }
{
    words
        .iter()
        .fold(false, |twin, w| twin | leads_to_twin(items, *w, p, x))
}

// Where every live place is pointed to, a twin's slot is a home slot of the animal.
fn is_doubled_place(table: &Table, p: usize) -> bool
    requires { Sought (seen table.now) × (4 * p + 3 < length table.now.items.now) }
    ensures { result ≡ is_doubled (shape_of four (seen table.now)) (seen table.now) p }
{
    let x = table.items[4 * p];
    if x == 0 {
        return false;
    }
    let h = looking::homes_in(table, x);
    let words = home_words::home_words_of(table.slots, h.first, h.second);
    twin_among(table.items, words, p as u32, x)
}

// 6: the lowest live place with a twin.
pub fn doubled_place(table: &Table) -> Option<usize>
    requires { Sought (seen table.now) }
    ensures { result ≡ first (is_doubled (shape_of four (seen table.now)) (seen table.now)) (range 0 (length table.now.items.now / 4)) }
{
    (0..table.items.len() / 4).find(|&p| is_doubled_place(table, p))
}
