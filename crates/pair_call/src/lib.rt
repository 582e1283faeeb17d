// The pair call: the table, the two names, then the verdict on the steps.
#![tactic(auto)]

ghost use Rattle.std.specs.Prelude.{◌≡◌};
ghost use Rattle.model.specs.Calls.{in_table, pair_of};
ghost use Rattle.model.specs.Site.{name};
ghost use Rattle.answers.specs.Answers.{pair_result};

use answers::{PairVerdict, Refusal};
use table::access;

// Whether two steps, by their names, are dependent.
pub fn pair(
    table: &[u8],
    actor: u8,
    action: u8,
    actor2: u8,
    action2: u8,
) -> Result<PairVerdict, Refusal>
    ensures { pair_result result ≡ pair_of table.now (name actor action) (name actor2 action2) }
{
    reader::read(table)?;
    let (a, k) = (usize::from(actor), usize::from(action));
    let (b, l) = (usize::from(actor2), usize::from(action2));
    if !stands(table, a, k) {
        return Err(Refusal::NoStep);
    }
    if !stands(table, b, l) {
        return Err(Refusal::NoStep);
    }
    if dependence::dependent(table, a, k, b, l) {
        Ok(PairVerdict::Dependent)
    } else {
        Ok(PairVerdict::Independent)
    }
}

// Whether the table has a step.
fn stands(table: &[u8], actor: usize, action: usize) -> bool
    ensures { result ≡ in_table table.now (name actor action) }
{
    actor < access::actors(table) && action < access::actions(table, actor)
}
