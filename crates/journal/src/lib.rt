// The site's journal: a Note adds its entry at the end, and the report's last section is written from it.
#![tactic(auto)]

ghost use Rattle.std.specs.Prelude.{◌≡◌, [], ◌∷◌, ◌++◌, ◌<◌, ◌≤◌, length};
ghost use Rattle.model.specs.Report.{parts, journal_bytes};
ghost use Rattle.names.specs.InByte.{name_of};
ghost use Rattle.state.specs.State.{journal_of};
ghost use Rattle.writing.specs.Written.{Wrote};
ghost use Rattle.journal.specs.Parts.{six_bytes, six_at};

use state::Journal;

// A Note: its step's name in one byte, and the value.
pub fn add(journal: &mut Journal, name: usize, value: u32)
    requires { (journal.old.count < 256) × (name < 256) }
    ensures { journal_of journal.new ≡ journal_of journal.old ++ (record { step = name_of name; value = value } ∷ []) }
{
    journal.entries[journal.count] = name + 256 * value as usize;
    journal.count += 1;
}

// The number of entries, and the entries.
pub fn part(journal: &Journal, buf: &mut [u8]) -> usize
    requires { length (journal_bytes (journal_of journal.now)) ≤ length buf.old }
    ensures { Wrote buf.old (journal_bytes (journal_of journal.now)) buf.new result }
{
    let at = writing::short(journal.count as u16, buf);
    at + entries(&journal.entries[..journal.count], &mut buf[at..])
}

fn entries(entries: &[usize], buf: &mut [u8]) -> usize
    requires { length (parts (six_at entries.now) (length entries.now) 0) ≤ length buf.old }
    ensures { Wrote buf.old (parts (six_at entries.now) (length entries.now) 0) buf.new result }
{
    writing::each(entries.len(), |i, buf| entry(entries[i], buf), buf)
}

// An entry: the name, two bytes, and the value, four.
fn entry(e: usize, buf: &mut [u8]) -> usize
    requires { 6 ≤ length buf.old }
    ensures { Wrote buf.old (six_bytes e) buf.new result }
{
    let at = writing::put(&writing::name((e % 256) as u8), buf);
    at + writing::number((e / 256 % 4294967296) as u32, &mut buf[at..])
}
