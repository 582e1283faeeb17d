// The page call: 20, then the table and the schedule, then the page of the end.
#![tactic(auto)]

ghost use Rattle.std.specs.Prelude.{◌≡◌};
ghost use Rattle.model.specs.Page.{page_of};
ghost use Rattle.answers.specs.Answers.{length_result};

use answers::Refusal;
use state::Site;

// Runs a schedule from a fresh site and lays out the page of its end in the lent bytes.
pub fn page(table: &[u8], schedule: &[u8], buffer: &mut [u8]) -> Result<u32, Refusal>
    ensures answer { length_result result ≡ (page_of table.now schedule.now buffer.old).result }
    ensures lent { buffer.new ≡ (page_of table.now schedule.now buffer.old).lent }
{
    if buffer.len() < 816 {
        return Err(Refusal::PageRoom);
    }
    let mut site = Site::fresh();
    let mut names = [0u8; 256];
    let actors = execution::execute(table, schedule, &mut site, &mut names)?;
    let n = page::write(table, actors, &site, buffer);
    Ok(n as u32)
}
