// The lines of a replay beside the table's calls: a poke, the list, the plain engine, the judge. A run that is stored to, the buffer and the
// position in it stay parameters of their own: a struct round a `&mut` would need a clause on its name in every contract.
#![tactic(auto)]

ghost use Rattle.std.specs.Prelude.{◌≡◌, ◌+◌, ◌*◌, ◌≤◌, length};
ghost use Rattle.model.specs.Seen.{seen};
ghost use Rattle.model.specs.Shape.{four};
ghost use Rattle.model.specs.Calling.{write_list};
ghost use Rattle.model.specs.Lent.{lent_call};
ghost use Rattle.plain.specs.Plain.{plain_read};
ghost use Rattle.judgement.specs.Verdict.{judgement};
ghost use Rattle.buffer.specs.Put.{Put};
ghost use Rattle.replay_answers.specs.Text.{judged, text};
ghost use Rattle.replay_rows.specs.World.{Replied, longest, world};
ghost use Rattle.replay_rows.specs.Poke.{Poked};
ghost use Rattle.replay_rows.specs.Meaning.{lists};

use model::Table;
use replay_rows::Turn;
use replay_words::RunWord;

// A word of a run, if there is one and the new word fits.
pub fn poke<T: RunWord>(run: &mut [T], at: u64, word: u64) -> bool
    ensures { Poked T.LARGEST at word (T.numbers run.old) (T.numbers run.new) result }
{
    let i = at as usize;
    if run.len() <= i {
        return false;
    }
    if T::LARGEST < word {
        return false;
    }
    run[i] = T::of_number(word);
    true
}

// The list into the bytes lent for it, and its lines.
fn put_list(table: &Table, records: &mut [u8], out: &mut [u8], at: usize) -> usize
    requires { at + 384 + 3 * length records.old ≤ length out.old }
    ensures { Put (text (lent_call four (seen table.now) (write_list (length records.old))).answer)
        at out.old out.new result × (result ≤ at + 384 + 3 * length records.old) }
{
    let said = listing::list(table, records);
    replay_answers::put_listing(out, at, said, records)
}

// The list into that many bytes, but no more than there are.
pub fn list_line(
    size: u64,
    table: &Table,
    records: &mut [u8],
    out: &mut [u8],
    at: usize,
    hand: usize,
) -> Turn
    requires { (length records.old ≡ 81920) × (at + longest ≤ length out.old) }
    ensures { Replied (lists size (world (seen table.now) hand)) (seen table.now) at out.old out.new result }
{
    let end = size.min(81920) as usize;
    Turn {
        next: put_list(table, &mut records[..end], out, at),
        hand,
    }
}

// What the plain engine says, as its line.
pub fn put_plain(
    items: &[u64],
    animal: u64,
    limit: u64,
    minute: u64,
    out: &mut [u8],
    at: usize,
) -> usize
    requires { at + 384 ≤ length out.old }
    ensures { Put (text (plain_read items.now animal limit minute)) at out.old out.new result × (result ≤ at + 384) }
{
    let said = plain::read(items, animal, limit, minute);
    replay_answers::put_reading(out, at, said)
}

// What the judge says of the three runs, as its line.
pub fn put_verdict(table: &Table, out: &mut [u8], at: usize) -> usize
    requires { at + 384 ≤ length out.old }
    ensures { Put (judged (judgement four (seen table.now))) at out.old out.new result × (result ≤ at + 384) }
{
    let said = judging::judge(table);
    replay_answers::put_judgement(out, at, said)
}
