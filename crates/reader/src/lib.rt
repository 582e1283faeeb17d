// The table reader: which files are task tables. The header, the directory, the file's end, and the actions of every actor, in file order.
#![tactic(auto)]

ghost use Rattle.std.specs.Prelude.{◌≡◌, ◌+◌, ◌*◌, ◌<◌, ◌≤◌, length, MatchResult, OnOk};
ghost use Rattle.table.specs.Outcome.{accepted};
ghost use Rattle.table.specs.Format.{actors_of, due_of};
ghost use Rattle.table.specs.Read.{read_of, header_of, entry_of, directory_of, actor_of, actions_of};
ghost use Rattle.table.specs.Promise.{WellFormed};
ghost use Rattle.table.specs.Answer.{outcome, fault_of};
ghost use Rattle.fields.specs.Parts.{LimitsOf};
ghost use Rattle.reader.specs.Parts.{Placed};

use fields::Limits;
use table::{Fault, bytes, demand};

// Reads a file of any length: whether it is a task table.
#[tactic(auto, using(table::proofs::Promise::promised), unfolding(table::specs::Read::read_of))]
pub fn read(table: &[u8]) -> Result<(), Fault>
    ensures result_value { outcome result ≡ read_of table.now }
    ensures well_formed { OnOk result (WellFormed table.now) }
{
    header(table)?;
    let end = directory(table)?;
    demand(table.len() == end, Fault::Length)?;
    actions(table)
}

fn header(t: &[u8]) -> Result<(), Fault>
    ensures { outcome result ≡ header_of t.now }
{
    demand(4 <= t.len(), Fault::Short)?;
    demand(t[0] == 1, Fault::Edition)?;
    demand(1 <= t[1] && t[1] <= 8, Fault::Counts)?;
    demand(t[2] <= 8, Fault::Counts)?;
    demand(t[3] <= 8, Fault::Counts)
}

// Each actor's actions begin where those of the one before end. Where the last one's end, if nothing is wrong.
#[tactic(auto, using(table::proofs::Readings::steps))]
fn directory(t: &[u8]) -> Result<usize, Fault>
    requires { header_of t.now ≡ accepted }
    ensures { MatchResult result (λ end. (directory_of t.now ≡ accepted) × (end ≡ due_of t.now (actors_of t.now)))
        (λ fault. directory_of t.now ≡ fault_of fault) }
{
    let actors = usize::from(t[1]);
    let mut due = 4 + 4 * actors;
    demand(due <= t.len(), Fault::Directory)?;
    for a in 0..actors {
        due = entry(t, a, due)?;
    }
    Ok(due)
}

// One entry: where the next actor's actions have to begin.
fn entry(t: &[u8], a: usize, due: usize) -> Result<usize, Fault>
    requires { (8 + 4 * a ≤ length t.now) × (due ≡ due_of t.now a) }
    ensures { MatchResult result (λ next. (entry_of t.now a ≡ accepted) × (next ≡ due_of t.now (a + 1)))
        (λ fault. entry_of t.now a ≡ fault_of fault) }
{
    let count = bytes::word(t, 6 + 4 * a);
    demand(bytes::word(t, 4 + 4 * a) == due, Fault::Directory)?;
    demand(count <= 32, Fault::Directory)?;
    Ok(due + 8 * count)
}

#[tactic(auto, using(table::proofs::Readings::steps))]
fn actions(t: &[u8]) -> Result<(), Fault>
    requires { Placed t.now }
    ensures { outcome result ≡ actions_of t.now }
{
    let limits = Limits::of(t);
    for a in 0..usize::from(t[1]) {
        actor(t, a, &limits)?;
    }
    Ok(())
}

// One actor's actions.
#[tactic(auto, using(table::proofs::Readings::steps))]
fn actor(t: &[u8], a: usize, limits: &Limits) -> Result<(), Fault>
    requires { Placed t.now × (a < actors_of t.now) × LimitsOf t.now limits.now }
    ensures { outcome result ≡ actor_of t.now a }
{
    let first = bytes::word(t, 4 + 4 * a);
    for k in 0..bytes::word(t, 6 + 4 * a) {
        fields::check(t, first, k, limits)?;
    }
    Ok(())
}
