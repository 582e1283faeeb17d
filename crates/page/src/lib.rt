// The page of a state: a line for each actor, each into the rest of the lent bytes after the line before it. Each writer puts its text at the
// front of the part that it is lent, and answers with its length.
#![tactic(auto)]

ghost use Rattle.std.specs.Prelude.{◌≡◌, ℕ, ◌∷◌, ◌<◌, ◌≤◌, List, length};
ghost use Rattle.model.specs.Report.{parts};
ghost use Rattle.model.specs.Text.{space, left, line};
ghost use Rattle.model.specs.Page.{status_word, cells_text, actor_text, page};
ghost use Rattle.state.specs.State.{record_of, site_of, Positions};
ghost use Rattle.table.specs.Format.{actors_of};
ghost use Rattle.model.specs.Site.{Entry};
ghost use Rattle.readiness.specs.Parts.{Answerable, Looked, site_with};
ghost use Rattle.writing.specs.Written.{Wrote};
ghost use Rattle.page.specs.Parts.{status_as, status_from, line_at, Pageable};

use state::{Actor, Hold, Site};
use table::access;

// How an actor stands.
#[derive(Clone, Copy)]
pub enum Status {
    Ready,
    Waits,
    Over,
    Finished,
}

impl Status {
    ghost use Rattle.page.specs.Parts.{status_as};

    // A space, and the status at the left of eight columns.
    fn word(self) -> &'static [u8]
        ensures { result.now ≡ space ∷ left 8 (status_word (status_as self)) }
    {
        match self {
            Status::Ready => b" ready   ",
            Status::Waits => b" waits   ",
            Status::Over => b" over    ",
            Status::Finished => b" finished",
        }
    }
}

// Lays the page out: that of the site that the arrays hold (`held`), whatever the ports' logs, their ends and the journal are (`alike`).
pub fn write(table: &[u8], actors: [Actor; 8], site: &Site, buf: &mut [u8]) -> usize
    requires { Pageable table.now actors site.now buf.old }
    ensures held { Wrote buf.old (page table.now (site_of actors site.now)) buf.new result }
    ensures alike { (log ends : List ℕ) (journal : List Entry) → Wrote buf.old
        (page table.now (site_with actors site.now log ends journal)) buf.new result }
{
    lines(table, &actors, access::actors(table), site, buf)
}

// The lines of so many actors.
fn lines(table: &[u8], actors: &[Actor; 8], count: usize, site: &Site, buf: &mut [u8]) -> usize
    requires { Answerable table.now actors.now × Positions actors.now × (count ≤ actors_of table.now)
        × (length (parts (line_at table.now actors.now site.now) count 0) ≤ length buf.old) }
    ensures { Wrote buf.old (parts (line_at table.now actors.now site.now) count 0) buf.new result }
{
    writing::each(count, |a, buf| actor_part(table, actors, a, site, buf), buf)
}

// The line of one actor.
fn actor_part(table: &[u8], actors: &[Actor; 8], a: usize, site: &Site, buf: &mut [u8]) -> usize
    requires { Answerable table.now actors.now × Positions actors.now × (a < actors_of table.now)
        × (length (line_at table.now actors.now site.now a) ≤ length buf.old) }
    ensures { Wrote buf.old (line_at table.now actors.now site.now a) buf.new result }
{
    let r = actors[a];
    let status = status_of(table, a, r, site);
    actor_line(a, r, status, buf)
}

// An actor is finished, or stands as its next step does.
fn status_of(table: &[u8], a: usize, r: Actor, site: &Site) -> Status
    requires { Looked table.now a }
    ensures { status_as result ≡ status_from table.now a r site.now }
{
    if access::actions(table, a) <= r.position {
        return Status::Finished;
    }
    match readiness::next_step(table, a, r, site) {
        Ok(()) => Status::Ready,
        Err(Hold::Waits) => Status::Waits,
        Err(Hold::Over) => Status::Over,
    }
}

// An actor's line: its number, its position, its status, its cells.
fn actor_line(a: usize, r: Actor, status: Status, buf: &mut [u8]) -> usize
    requires { (a < 8) × (r.position < 256) × (length (line (actor_text a (record_of r) (status_as status))) ≤ length buf.old) }
    ensures { Wrote buf.old (line (actor_text a (record_of r) (status_as status))) buf.new result }
{
    let number = text::right(1, a as u32, buf);
    let word = number + text::column(b" ", 2, r.position as u32, &mut buf[number..]);
    let first = word + writing::put(status.word(), &mut buf[word..]);
    let end = first + cells_part(r.cells, &mut buf[first..]);
    buf[end] = b'\n';
    end + 1
}

// Each cell after a space, at the right of ten columns.
fn cells_part(cells: [u32; 8], buf: &mut [u8]) -> usize
    requires { length (cells_text cells) ≤ length buf.old }
    ensures { Wrote buf.old (cells_text cells) buf.new result }
{
    writing::each(8, |c, buf| text::ten_columns(cells[c], buf), buf)
}
