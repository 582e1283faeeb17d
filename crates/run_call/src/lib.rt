// The run call: 10, then the table and the schedule, then the report of the end.
#![tactic(auto)]

ghost use Rattle.std.specs.Prelude.{◌≡◌};
ghost use Rattle.model.specs.Calls.{run_of};
ghost use Rattle.answers.specs.Answers.{length_result};

use answers::Refusal;
use state::Site;

// Runs a schedule from a fresh site and writes the state report of its end into the lent bytes.
pub fn run(table: &[u8], schedule: &[u8], report: &mut [u8]) -> Result<u32, Refusal>
    ensures answer { length_result result ≡ (run_of table.now schedule.now report.old).result }
    ensures lent { report.new ≡ (run_of table.now schedule.now report.old).lent }
{
    if report.len() < 4514 {
        return Err(Refusal::ReportRoom);
    }
    let mut site = Site::fresh();
    let mut names = [0u8; 256];
    let actors = execution::execute(table, schedule, &mut site, &mut names)?;
    let n = report::write(table, actors, &site, report);
    Ok(n as u32)
}
