// One step of one actor: it looks, its own record takes its local step, and it posts.
#![tactic(auto)]

ghost use Rattle.std.specs.Prelude.{◌≡◌, ◌+◌, ◌<◌, set};
ghost use Rattle.table.specs.Format.{actors_of};
ghost use Rattle.table.specs.Decode.{action_of};
ghost use Rattle.table.specs.Promise.{WellFormed};
ghost use Rattle.model.specs.Local.{pick_up_seen, place_seen};
ghost use Rattle.look.specs.Parts.{seen_of};
ghost use Rattle.step.specs.Parts.{Steppable, StepTaken, Picks, SmallPlace};
ghost use Rattle.state.specs.State.{next_of};

use look::Found;
use state::{Actor, Hold, Site};
use table::Action;

// The record after an actor's next step, or why the step is not taken.
pub fn step(table: &[u8], a: usize, r: Actor, site: &mut Site) -> Result<Actor, Hold>
    requires { Steppable table.now a r site.old }
    ensures { StepTaken table.now a (next_of table.now a r) r site.old site.new result }
{
    let me = 32 * a + r.position;
    let after = match table::within::action(table, a, r.position) {
        Action::Set { cell, value } => r.put(cell, value),
        Action::Add { cell, other } => {
            r.adding(cell, other)?;
            r.add(cell, other)
        }
        Action::Lesser { cell, other } => r.lesser(cell, other),
        Action::Send { mailbox, cell } => {
            mail::send(&mut site.mail, me, mailbox, r.cells[cell]);
            r
        }
        Action::Receive { mailbox, cell: _ } => {
            mail::receive(&mut site.mail, me, mailbox);
            r
        }
        Action::TestAny { result, list } => {
            let seen = look::communications(&site.mail, a, list);
            told(picked(table, a, r, seen), result, seen)
        }
        Action::WaitAny { result, list } => {
            let seen = look::communications(&site.mail, a, list);
            look::awaited(seen)?;
            told(picked(table, a, r, seen), result, seen)
        }
        Action::Lock { mutex } => {
            mutex::join(&mut site.queues, mutex, a);
            r
        }
        Action::Unlock { mutex } => {
            mutex::leave(&mut site.queues, mutex, a);
            r
        }
        Action::MutexTest { result, list } => told(r, result, look::mutexes(&site.queues, a, list)),
        Action::MutexWait { result, list } => {
            let seen = look::mutexes(&site.queues, a, list);
            look::awaited(seen)?;
            told(r, result, seen)
        }
        Action::Note { cell } => {
            journal::add(&mut site.journal, me, r.cells[cell]);
            r
        }
    };
    Ok(after.next())
}

// The value of a Receive that was found goes into its cell.
fn picked(table: &[u8], a: usize, r: Actor, seen: Option<Found>) -> Actor
    requires { WellFormed table.now × (a < actors_of table.now) × Picks table.now a (seen_of seen) }
    ensures { (result.position ≡ r.position) × (result.cells ≡ pick_up_seen (action_of table.now a) (seen_of seen) r.cells) }
{
    let Some(found) = seen else {
        return r;
    };
    match table::within::action(table, a, found.number) {
        Action::Receive { mailbox: _, cell } => r.put(cell, found.value),
        _ => r,
    }
}

// The place found, or 0, goes into the result cell.
fn told(r: Actor, res: usize, seen: Option<Found>) -> Actor
    requires { (res < 8) × SmallPlace (seen_of seen) }
    ensures { (result.position ≡ r.position) × (result.cells ≡ set r.cells res (place_seen (seen_of seen))) }
{
    let place = seen.map_or(0, |found| found.place as u32);
    r.put(res, place)
}
