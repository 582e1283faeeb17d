// The draw call: 23, then the table, then the schedule that a seed determines.
#![tactic(auto)]

ghost use Rattle.std.specs.Prelude.{◌≡◌};
ghost use Rattle.model.specs.Draw.{draw_of};
ghost use Rattle.answers.specs.Answers.{length_result};

use answers::Refusal;
use policy::Policy;

// Draws a schedule from a fresh site and writes its entries into the lent bytes.
pub fn draw(table: &[u8], seed: u32, schedule: &mut [u8]) -> Result<u32, Refusal>
    ensures answer { length_result result ≡ (draw_of table.now seed schedule.old).result }
    ensures lent { schedule.new ≡ (draw_of table.now seed schedule.old).lent }
{
    scheduler::schedule(table, Policy::drawn(seed), schedule)
}
