// The ready answer of a state: the mask, how many actors are ready, and the ending. What a call promises of the site that the arrays hold (`held`) it
// promises whatever the ports' logs, their ends and the journal are (`alike`): it looks at none of them.
#![tactic(auto)]

ghost use Rattle.std.specs.Prelude.{◌≡◌, ◌≢◌, true, cond, ℕ, ◌+◌, ◌-◌, ◌^◌, ◌<◌, ◌≤◌, List, length};
ghost use Rattle.table.specs.Format.{actors_of, count_of};
ghost use Rattle.model.specs.Ready.{bit_of, ready_mask, ready_answer};
ghost use Rattle.model.specs.Site.{Entry};
ghost use Rattle.readiness.specs.Parts.{Answerable, Known, Looked, step_in, step_from, ready_in, looks_ready, everyone_finished};
ghost use Rattle.readiness.specs.Parts.{site_with, seen_with};
ghost use Rattle.state.specs.State.{site_of, step_as};
ghost use Rattle.answers.specs.Answers.{readiness_of};

use answers::{Ending, Readiness};
use state::{Actor, Hold, Site};
use table::Action;

// The number of actors that are ready is the number of ones in their mask.
pub fn answer(table: &[u8], actors: [Actor; 8], site: &Site) -> Readiness
    requires { Answerable table.now actors }
    ensures held { readiness_of result
        ≡ ready_answer table.now (site_of actors site.now) }
    ensures alike { (log ends : List ℕ) (journal : List Entry) → readiness_of result
        ≡ ready_answer table.now (site_with actors site.now log ends journal) }
{
    let n = table::access::actors(table);
    let mask = ready_mask(table, n, 0, 0, actors, site);
    let count = mask.count_ones();
    let ending = if all_finished(table, n, actors) {
        Ending::Finished
    } else if count == 0 {
        Ending::Stuck
    } else {
        Ending::Going
    };
    Readiness {
        mask,
        count,
        ending,
    }
}

// Which actors are ready: bit i of the mask is actor i's, from the last actor down. Those that `known` has are known to be ready, but for
// actor `a`, and are not looked at.
pub fn ready_mask(
    table: &[u8],
    n: usize,
    known: u32,
    a: usize,
    actors: [Actor; 8],
    site: &Site,
) -> u32
    requires { Answerable table.now actors × (n ≡ actors_of table.now) × Known table.now known a actors site.now }
    ensures held { result
        ≡ ready_mask table.now (site_of actors site.now) }
    ensures alike { (log ends : List ℕ) (journal : List Entry) → result
        ≡ ready_mask table.now (site_with actors site.now log ends journal) }
{
    let mut m = 0;
    for i in (0..n).rev() {
        let ready = is_known(known, a, i) || is_ready(table, i, actors[i], site);
        m = u32::from(ready) + 2 * m;
    }
    m
}

// A mask that has actor `a`, with its bit as it is now.
pub fn own_bit(table: &[u8], mask: u32, a: usize, r: Actor, site: &Site) -> u32
    requires { Looked table.now a × (2 ^ a ≤ mask) }
    ensures held { result
        ≡ cond (looks_ready table.now a r site.now) mask (mask - 2 ^ a) }
    ensures alike { (log ends : List ℕ) (journal : List Entry) → result
        ≡ cond (ready_in table.now a r (seen_with r site.now log ends journal)) mask (mask - 2 ^ a) }
{
    if is_ready(table, a, r, site) {
        mask
    } else {
        mask - (1 << a)
    }
}

// Whether a mask has actor i, where it is not actor a.
fn is_known(known: u32, a: usize, i: usize) -> bool
    requires { i < 8 }
    ensures { result ≡ true → (bit_of known i ≡ 1) × (i ≢ a) }
{
    i != a && (known >> i) % 2 == 1
}

// Whether an actor is ready: not finished, and its next step is taken.
fn is_ready(table: &[u8], a: usize, r: Actor, site: &Site) -> bool
    requires { Looked table.now a }
    ensures held { result
        ≡ looks_ready table.now a r site.now }
    ensures alike { (log ends : List ℕ) (journal : List Entry) → result
        ≡ ready_in table.now a r (seen_with r site.now log ends journal) }
{
    r.position < table::access::actions(table, a) && next_step(table, a, r, site).is_ok()
}

// What the next step of an actor is that is not finished.
pub fn next_step(table: &[u8], a: usize, r: Actor, site: &Site) -> Result<(), Hold>
    requires { Looked table.now a × (r.position < count_of table.now a) }
    ensures held { step_as result
        ≡ step_from table.now a r site.now }
    ensures alike { (log ends : List ℕ) (journal : List Entry) → step_as result
        ≡ step_in table.now a r (seen_with r site.now log ends journal) }
{
    match table::within::action(table, a, r.position) {
        Action::Add { cell, other } => r.adding(cell, other),
        Action::WaitAny { result: _, list } => look::awaited(look::communications(
            &site.mail, a, list,
        )),
        Action::MutexWait { result: _, list } => look::awaited(look::mutexes(
            &site.queues,
            a,
            list,
        )),
        _ => Ok(()),
    }
}

// Whether every actor's position has come to its number of actions.
fn all_finished(table: &[u8], n: usize, actors: [Actor; 8]) -> bool
    requires { (n ≤ 8) × (length actors ≡ 8) }
    ensures { result ≡ everyone_finished table.now n actors }
{
    actors
        .iter()
        .take(n)
        .enumerate()
        .all(|(a, r)| table::access::actions(table, a) <= r.position)
}
