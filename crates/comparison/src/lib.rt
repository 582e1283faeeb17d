// What the calls on two schedules share: each schedule is stepped from a fresh site, and only the names of its steps are kept.
#![tactic(auto)]

ghost use Rattle.std.specs.Prelude.{◌≡◌, length};
ghost use Rattle.table.specs.Promise.{WellFormed};
ghost use Rattle.state.specs.State.{Empty};
ghost use Rattle.comparison.specs.Traces.{Traced, Judged, Verdict, ComparedRight};

use answers::{Comparison, Refusal, Stop};
use state::Site;

// Reads the table, steps the first schedule whole and then the second, and judges. `names` and `others` are left with the names of the
// steps that the two run, where they are the same.
pub fn compared(
    table: &[u8],
    first: &[u8],
    second: &[u8],
    names: &mut [u8; 256],
    others: &mut [u8; 256],
) -> Result<Comparison, Refusal>
    requires { (length names.old ≡ 256) × (length others.old ≡ 256) }
    ensures { ComparedRight table.now first.now second.now names.new others.new result }
{
    reader::read(table)?;
    let mut site = Site::fresh();
    trace_of(table, first, &mut site, names).map_err(Refusal::First)?;
    site.clear();
    trace_of(table, second, &mut site, others).map_err(Refusal::Second)?;
    Ok(judge(table, first, second, names, others))
}

// The verdict on two accepted schedules, by their lengths and the names of their steps, and how many pairs of these were compared.
fn judge(
    table: &[u8],
    first: &[u8],
    second: &[u8],
    names: &[u8; 256],
    others: &[u8; 256],
) -> Comparison
    requires { Judged table.now first.now second.now names.now others.now }
    ensures { Verdict table.now first.now second.now result }
{
    let m = first.len();
    if m != second.len() {
        return Comparison::Different(0);
    }
    equivalence::same(table, names, others, m)
}

// Steps a schedule from a fresh site, as far as the first entry that is refused. `names` is left with the names of its steps, where it is accepted.
fn trace_of(
    table: &[u8],
    schedule: &[u8],
    site: &mut Site,
    names: &mut [u8; 256],
) -> Result<(), Stop>
    requires { WellFormed table.now × Empty site.old × (length names.old ≡ 256) }
    ensures { Traced table.now schedule.now names.new result }
{
    play::play(table, schedule, site, names)?;
    Ok(())
}
