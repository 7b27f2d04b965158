// The calls that a cabinet links, as libboughladder.a: C names over numbers and slices, and nothing but the C clothes of each answer. A set
// in steps has an object of its own, boughladder_steps. C passes the three runs, the parts of a grant, and a limit with its minute one by one.
#![tactic(auto)]

ghost use Rattle.std.specs.Prelude.{◌≡◌};
ghost use Rattle.model.specs.Memory.{mem};
ghost use Rattle.model.specs.Shape.{four};
ghost use Rattle.model.specs.Hash.{fnv_step};
ghost use Rattle.model.specs.Calling.{delete, evict, find, grant, read, serve, set_animal};
ghost use Rattle.model.specs.Lent.{lent_call};
ghost use Rattle.plain.specs.Plain.{plain_read};
ghost use Rattle.judgement.specs.Verdict.{judgement};
ghost use Rattle.clothes.specs.Clothes.{number, reading_clothes, finding_clothes, setting_clothes, evicting_clothes, judgement_clothes};
ghost use Rattle.clothes.specs.Dressed.{WholeIn, CutIn};
ghost use Rattle.boughladder.specs.Dressed.{FreshIn, ListIn};

use clothes::{
    BoughladderEvicting, BoughladderFinding, BoughladderJudgement, BoughladderListing,
    BoughladderReading, BoughladderSetting,
};
use model::{Grant, Table};
use places::Hand;

#[unsafe(no_mangle)]
pub extern "C" fn boughladder_fnv_byte(h: u32, b: u8) -> u32
    ensures { result ≡ fnv_step h b }
{
    hashing::fnv_byte(h, b)
}

#[unsafe(no_mangle)]
pub extern "C" fn boughladder_fresh(
    slots: &mut [u32],
    counters: &mut [u32],
    items: &mut [u64],
) -> u32
    ensures { FreshIn four (mem slots.old counters.old items.old)
        (mem slots.new counters.new items.new) result }
{
    clothes::dress_done(starting::fresh(slots, counters, items))
}

#[unsafe(no_mangle)]
pub extern "C" fn boughladder_read(
    slots: &[u32],
    counters: &[u32],
    items: &[u64],
    animal: u64,
    limit: u64,
    minute: u64,
) -> BoughladderReading
    ensures { result ≡ reading_clothes
        (lent_call four (mem slots.now counters.now items.now) (read animal limit minute)).answer }
{
    let table = Table {
        slots,
        counters,
        items,
    };
    reading::read(&table, animal, limit, minute).into()
}

#[unsafe(no_mangle)]
pub extern "C" fn boughladder_serve(
    slots: &[u32],
    counters: &[u32],
    items: &mut [u64],
    animal: u64,
    limit: u64,
    minute: u64,
) -> BoughladderReading
    ensures { WholeIn four reading_clothes (mem slots.now counters.now items.old) (serve animal limit minute)
        (mem slots.now counters.now items.new) result }
{
    reading::serve(slots, counters, items, animal, limit, minute).into()
}

#[unsafe(no_mangle)]
pub extern "C" fn boughladder_find(
    slots: &[u32],
    counters: &[u32],
    items: &[u64],
    animal: u64,
) -> BoughladderFinding
    ensures { result ≡ finding_clothes
        (lent_call four (mem slots.now counters.now items.now) (find animal)).answer }
{
    let table = Table {
        slots,
        counters,
        items,
    };
    reading::find(&table, animal).into()
}

#[unsafe(no_mangle)]
pub extern "C" fn boughladder_set(
    slots: &mut [u32],
    counters: &mut [u32],
    items: &mut [u64],
    animal: u64,
    permission: u32,
    issued: u64,
    minute: u64,
) -> BoughladderSetting
    ensures { WholeIn four setting_clothes (mem slots.old counters.old items.old)
        (set_animal (grant animal permission issued minute)) (mem slots.new counters.new items.new) result }
{
    let granted = Grant {
        animal,
        permission,
        issued,
        minute,
    };
    setting::set(slots, counters, items, granted).into()
}

// Of which only the first k stores are made.
#[unsafe(no_mangle)]
pub extern "C" fn boughladder_set_cut(
    slots: &mut [u32],
    counters: &mut [u32],
    items: &mut [u64],
    animal: u64,
    permission: u32,
    issued: u64,
    minute: u64,
    k: u64,
) -> BoughladderSetting
    ensures { CutIn four setting_clothes (mem slots.old counters.old items.old)
        (set_animal (grant animal permission issued minute)) k (mem slots.new counters.new items.new) result }
{
    let granted = Grant {
        animal,
        permission,
        issued,
        minute,
    };
    setting::set_cut(slots, counters, items, granted, k).into()
}

#[unsafe(no_mangle)]
pub extern "C" fn boughladder_delete(
    slots: &mut [u32],
    counters: &mut [u32],
    items: &mut [u64],
    animal: u64,
) -> u32
    ensures { WholeIn four number (mem slots.old counters.old items.old) (delete animal)
        (mem slots.new counters.new items.new) result }
{
    clothes::dress_done(deleting::delete(slots, counters, items, animal))
}

// Of which only the first k stores are made.
#[unsafe(no_mangle)]
pub extern "C" fn boughladder_delete_cut(
    slots: &mut [u32],
    counters: &mut [u32],
    items: &mut [u64],
    animal: u64,
    k: u64,
) -> u32
    ensures { CutIn four number (mem slots.old counters.old items.old) (delete animal) k
        (mem slots.new counters.new items.new) result }
{
    clothes::dress_done(deleting::delete_cut(slots, counters, items, animal, k))
}

#[unsafe(no_mangle)]
pub extern "C" fn boughladder_evict(
    slots: &mut [u32],
    counters: &mut [u32],
    items: &mut [u64],
    hand: usize,
) -> BoughladderEvicting
    ensures { WholeIn four (evicting_clothes hand) (mem slots.old counters.old items.old) (evict hand)
        (mem slots.new counters.new items.new) result }
{
    let turned = evicting::evict(slots, counters, items, Hand { at: hand });
    clothes::dress_evicting(turned.answer, turned.hand.at)
}

// Of which only the first k stores are made.
#[unsafe(no_mangle)]
pub extern "C" fn boughladder_evict_cut(
    slots: &mut [u32],
    counters: &mut [u32],
    items: &mut [u64],
    hand: usize,
    k: u64,
) -> BoughladderEvicting
    ensures { CutIn four (evicting_clothes hand) (mem slots.old counters.old items.old) (evict hand) k
        (mem slots.new counters.new items.new) result }
{
    let turned = evicting::evict_cut(slots, counters, items, Hand { at: hand }, k);
    clothes::dress_evicting(turned.answer, turned.hand.at)
}

#[unsafe(no_mangle)]
pub extern "C" fn boughladder_list(
    slots: &[u32],
    counters: &[u32],
    items: &[u64],
    buffer: &mut [u8],
) -> BoughladderListing
    ensures { ListIn four (mem slots.now counters.now items.now) buffer.old buffer.new result }
{
    let table = Table {
        slots,
        counters,
        items,
    };
    listing::list(&table, buffer).into()
}

// The auditor's reader: the items are all that it takes.
#[unsafe(no_mangle)]
pub extern "C" fn boughladder_plain_read(
    items: &[u64],
    animal: u64,
    limit: u64,
    minute: u64,
) -> BoughladderReading
    ensures { result ≡ reading_clothes (plain_read items.now animal limit minute) }
{
    plain::read(items, animal, limit, minute).into()
}

// The judge of a memory dump: it refuses nothing and stores nothing.
#[unsafe(no_mangle)]
pub extern "C" fn boughladder_judge(
    slots: &[u32],
    counters: &[u32],
    items: &[u64],
) -> BoughladderJudgement
    ensures { result ≡ judgement_clothes (judgement four (mem slots.now counters.now items.now)) }
{
    let table = Table {
        slots,
        counters,
        items,
    };
    judging::judge(&table).into()
}
