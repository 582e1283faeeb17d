// Makers of schedules: one turn after another, by a policy, until nobody is ready.
#![tactic(auto)]

ghost use Rattle.std.specs.Prelude.{◌≡◌, ◌++◌, map, ℕ, ◌/◌, ◌≤◌, length, take, drop};
ghost use Rattle.model.specs.Scheduler.{maker_of};
ghost use Rattle.answers.specs.Answers.{length_result};
ghost use Rattle.policy.specs.Parts.{rule_of, kept_of};

use answers::Refusal;
use policy::Policy;
use state::Site;

// Makes the schedule of a policy from a fresh site and writes its entries into the lent bytes.
pub fn schedule(table: &[u8], policy: Policy, entries: &mut [u8]) -> Result<u32, Refusal>
    ensures answer { length_result result ≡ (maker_of (rule_of policy) table.now (kept_of policy) entries.old).result }
    ensures lent { entries.new ≡ (maker_of (rule_of policy) table.now (kept_of policy) entries.old).lent }
{
    if entries.len() < 256 {
        return Err(Refusal::ScheduleRoom);
    }
    reader::read(table)?;
    let mut site = Site::fresh();
    let mut names = [0u8; 256];
    // a made schedule is not refused
    let played = play::make(table, policy, &mut site, &mut names).unwrap();
    let n = played.steps;
    write(&names, n, entries);
    Ok(n as u32)
}

// The actors of n step names, in front of the lent bytes.
#[tactic(auto, using(crate::proofs::Entries::written_next))]
fn write(names: &[u8; 256], n: usize, entries: &mut [u8])
    requires { (length names.now ≡ 256) × (n ≤ 256) × (256 ≤ length entries.old) }
    ensures { entries.new ≡ map (λ (x : ℕ). x / 32) (take n names.now) ++ drop n entries.old }
{
    // no `iter_mut().zip(..)`: tried, and after it a proof knows the slice's length alone
    for (i, name) in names[..n].iter().enumerate() {
        entries[i] = *name / 32;
    }
}
