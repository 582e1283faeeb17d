// The report's sections of the actors and of their actions. Each writer puts its bytes at the front of the part that it is lent, and answers with
// their number.
#![tactic(auto)]

ghost use Rattle.std.specs.Prelude.{◌≡◌, ◌∷◌, ℕ, ◌<◌, ◌≤◌, ◌^◌, length, get_or};
ghost use Rattle.table.specs.Format.{count_of};
ghost use Rattle.model.specs.Report.{long, parts, actor_bytes, comm_bytes};
ghost use Rattle.state.specs.State.{records_of, comm_of, Positions};
ghost use Rattle.writing.specs.Written.{Wrote};
ghost use Rattle.actor_sections.specs.Parts.{actors_bytes, own_bytes, actions_bytes};

use state::{Actor, Mail};
use table::access;

// An actor's cells, four bytes each.
fn cells_part(cells: [u32; 8], buf: &mut [u8]) -> usize
    requires { 32 ≤ length buf.old }
    ensures { Wrote buf.old (parts (λ c. long (get_or cells c 0)) 8 0) buf.new result }
{
    writing::each(8, |c, buf| writing::number(cells[c], buf), buf)
}

// An actor's position and cells.
fn actor_part(actors: &[Actor; 8], a: usize, buf: &mut [u8]) -> usize
    requires { (a < 8) × Positions actors.now × (33 ≤ length buf.old) }
    ensures { Wrote buf.old (actor_bytes (records_of actors.now a)) buf.new result }
{
    let r = actors[a];
    let at = writing::put(&[r.position as u8], buf);
    at + cells_part(r.cells, &mut buf[at..])
}

// The actors.
pub fn actors_part(actors: [Actor; 8], count: usize, buf: &mut [u8]) -> usize
    requires { (count ≤ 8) × Positions actors × (length (actors_bytes actors count) ≤ length buf.old) }
    ensures { Wrote buf.old (actors_bytes actors count) buf.new result }
{
    writing::each(count, |a, buf| actor_part(&actors, a, buf), buf)
}

// An action's eight bytes: its state, its partner's actor and action, 0, and its value.
fn entry(state: u8, partner: [u8; 2], value: u32, buf: &mut [u8]) -> usize
    requires { (length partner ≡ 2) × (8 ≤ length buf.old) }
    ensures { Wrote buf.old (state ∷ get_or partner 0 0 ∷ get_or partner 1 0 ∷ 0 ∷ long value) buf.new result }
{
    let [actor, action] = partner;
    let at = writing::put(&[state, actor, action, 0], buf);
    at + writing::number(value, &mut buf[at..])
}

// A communication, from the number that holds it.
fn comm_part(c: u64, buf: &mut [u8]) -> usize
    requires { (c < 2 ^ 42) × (8 ≤ length buf.old) }
    ensures { Wrote buf.old (comm_bytes (comm_of c)) buf.new result }
{
    let value = (c / 1024) as u32;
    match c % 4 {
        0 => entry(0, [0, 0], 0, buf),
        1 => entry(1, [0, 0], value, buf),
        _ => entry(2, writing::name((c / 4 % 256) as u8), value, buf),
    }
}

// One actor's actions.
fn own_part(mail: &Mail, actor: usize, count: usize, buf: &mut [u8]) -> usize
    requires { (actor < 8) × (count ≤ 32) × (length (own_bytes mail.now.comms actor count) ≤ length buf.old) }
    ensures { Wrote buf.old (own_bytes mail.now.comms actor count) buf.new result }
{
    writing::each(
        count,
        |k, buf| comm_part(mail.comms[32 * actor + k], buf),
        buf,
    )
}

// The actions of each actor.
pub fn actions_part(table: &[u8], mail: &Mail, actors: usize, buf: &mut [u8]) -> usize
    requires { (actors ≤ 8) × ((a : ℕ) → a < actors → count_of table.now a ≤ 32)
        × (length (actions_bytes table.now mail.now.comms actors) ≤ length buf.old) }
    ensures { Wrote buf.old (actions_bytes table.now mail.now.comms actors) buf.new result }
{
    writing::each(
        actors,
        |a, buf| own_part(mail, a, access::actions(table, a), buf),
        buf,
    )
}
