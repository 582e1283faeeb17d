// The ready call: the table and the schedule, then who is ready at the end.
#![tactic(auto)]

ghost use Rattle.std.specs.Prelude.{◌≡◌};
ghost use Rattle.model.specs.Calls.{ready_of};
ghost use Rattle.answers.specs.Answers.{ready_result};

use answers::{Readiness, Refusal};
use state::Site;

// Which actors are ready at the end of a schedule from a fresh site.
pub fn ready(table: &[u8], schedule: &[u8]) -> Result<Readiness, Refusal>
    ensures { ready_result result ≡ ready_of table.now schedule.now }
{
    let mut site = Site::fresh();
    let mut names = [0u8; 256];
    let actors = execution::execute(table, schedule, &mut site, &mut names)?;
    Ok(readiness::answer(table, actors, &site))
}
