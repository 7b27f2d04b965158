// One line of a replay on the table there is: the row it follows says which call it makes. The runs, the buffers and the position stay
// parameters of their own: a struct round a `&mut` would need a clause on its name in every contract.
#![tactic(auto)]

ghost use Rattle.std.specs.Prelude.{◌≡◌, ◌≢◌, Ok, length};
ghost use Rattle.model.specs.Memory.{mem};
ghost use Rattle.replay_rows.specs.World.{Ample, Replied, world};
ghost use Rattle.replay_rows.specs.Rows.{meaning_of};
ghost use Rattle.replay_rows.specs.declared.Row.TheVariants as row;

use model::Table;
use replay_lines::Reason;
use replay_rows::{Followed, Row, Turn};

// A line's call on the table there is, by its row; of one that follows none, why.
#[tactic(auto, unfolding(replay_rows::specs::Meaning::meaning))]
fn on_row(
    follows: Result<Row, Reason>,
    number: u64,
    numbers: &[u64; 8],
    slots: &mut [u32],
    counters: &mut [u32],
    items: &mut [u64],
    records: &mut [u8],
    out: &mut [u8],
    at: usize,
    hand: usize,
) -> Turn
    requires no_fresh { (follows ≢ Ok row.Fresh) × (length records.old ≡ 81920) }
    requires ample { Ample (mem slots.old counters.old items.old) at out.old }
    ensures { Replied (meaning_of follows number numbers.now (world (mem slots.old counters.old items.old) hand))
        (mem slots.new counters.new items.new) at out.old out.new result }
{
    let [a, b, c, d, ..] = *numbers;
    let table = Table {
        slots,
        counters,
        items,
    };
    let row = match follows {
        Ok(row) => row,
        Err(why) => {
            return Turn {
                next: replay_answers::put_not_understood(out, at, number, why),
                hand,
            };
        }
    };
    match row {
        Row::Serve => Turn {
            next: replay_calls::answer_serve(slots, counters, items, a, b, c, out, at),
            hand,
        },
        Row::Read => Turn {
            next: replay_calls::answer_read(&table, a, b, c, out, at),
            hand,
        },
        Row::Set => {
            let g = replay_calls::granted(a, b, c, d);
            Turn {
                next: replay_calls::answer_set(slots, counters, items, g, None, out, at),
                hand,
            }
        }
        Row::Delete => Turn {
            next: replay_calls::answer_delete(slots, counters, items, a, None, out, at),
            hand,
        },
        Row::Evict => replay_calls::answer_evict(slots, counters, items, hand, None, out, at),
        Row::CutSet => Turn {
            next: replay_cuts::cut_set(numbers, slots, counters, items, out, at),
            hand,
        },
        Row::CutDelete => Turn {
            next: replay_cuts::cut_delete(numbers, slots, counters, items, out, at),
            hand,
        },
        Row::CutEvict => replay_cuts::cut_evict(numbers, slots, counters, items, out, at, hand),
        Row::Hand => Turn {
            next: replay_print::put_line(out, at, b"hand"),
            hand: a as usize,
        },
        Row::List => replay_shows::list_line(a, &table, records, out, at, hand),
        Row::PokeSlots => {
            let poked = replay_shows::poke(slots, a, b);
            Turn {
                next: replay_answers::put_poked(out, at, poked),
                hand,
            }
        }
        Row::PokeCounters => {
            let poked = replay_shows::poke(counters, a, b);
            Turn {
                next: replay_answers::put_poked(out, at, poked),
                hand,
            }
        }
        Row::PokeItems => {
            let poked = replay_shows::poke(items, a, b);
            Turn {
                next: replay_answers::put_poked(out, at, poked),
                hand,
            }
        }
        Row::Dump => Turn {
            next: replay_answers::put_dump(out, at, &table),
            hand,
        },
        Row::Fresh => unreachable!(),
        Row::Plain => Turn {
            next: replay_shows::put_plain(items, a, b, c, out, at),
            hand,
        },
        Row::Judge => Turn {
            next: replay_shows::put_verdict(&table, out, at),
            hand,
        },
        Row::Plan => Turn {
            next: replay_plans::answer_plan(numbers, &table, out, at),
            hand,
        },
        Row::Move => Turn {
            next: replay_plans::answer_move(numbers, slots, counters, items, out, at),
            hand,
        },
        Row::Enter => Turn {
            next: replay_plans::answer_enter(numbers, slots, counters, items, out, at),
            hand,
        },
        Row::Blank => Turn { next: at, hand },
    }
}

// A line that makes no fresh table: its call on the table there is, its answer, and the hand afterwards. Of one that follows no row, why.
pub fn on_table<F: Followed>(
    follows: F,
    number: u64,
    numbers: &[u64; 8],
    slots: &mut [u32],
    counters: &mut [u32],
    items: &mut [u64],
    records: &mut [u8],
    out: &mut [u8],
    at: usize,
    hand: usize,
) -> Turn
    requires no_fresh { (¬ (F.IsFresh follows)) × (length records.old ≡ 81920) }
    requires ample { Ample (mem slots.old counters.old items.old) at out.old }
    ensures { Replied (F.means follows number numbers.now (world (mem slots.old counters.old items.old) hand))
        (mem slots.new counters.new items.new) at out.old out.new result }
{
    on_row(
        follows.row(numbers),
        number,
        numbers,
        slots,
        counters,
        items,
        records,
        out,
        at,
        hand,
    )
}
