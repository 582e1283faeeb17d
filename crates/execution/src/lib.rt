// An execution: the table read, and a schedule stepped from a fresh site. It ends in a state, held in arrays, or in a refusal.
#![tactic(auto)]

ghost use Rattle.std.specs.Prelude.{◌≡◌, length};
ghost use Rattle.state.specs.State.{Empty};
ghost use Rattle.execution.specs.Parts.{Executed};

use answers::Refusal;
use state::{Actor, Site};

// The actors' records at the schedule's end, or what is refused. The site comes fresh, and holds the end state where that end is reached; `names` then
// holds the names of the steps run.
pub fn execute(
    table: &[u8],
    schedule: &[u8],
    site: &mut Site,
    names: &mut [u8; 256],
) -> Result<[Actor; 8], Refusal>
    requires { Empty site.old × (length names.old ≡ 256) }
    ensures { Executed table.now schedule.now site.new names.new result }
{
    reader::read(table)?;
    let played = play::play(table, schedule, site, names).map_err(Refusal::First)?;
    Ok(played.actors)
}
