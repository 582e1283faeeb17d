// A schedule from a fresh site, a lent one or one that a policy makes: each entry's step in turn, as far as the first entry that is refused.
#![tactic(auto)]

ghost use Rattle.play.specs.Parts.{Fresh, PlayedRight, schedule_by, played_by};

use answers::Stop;
use lead::Lead;
use policy::Policy;
use state::{Actor, Hold, Site};

// How many steps a schedule had, and the actors' records at its end.
#[derive(Clone, Copy)]
pub struct Played {
    pub steps: usize,
    pub actors: [Actor; 8],
}

// Plays a lent schedule. The site comes fresh, and holds the end state where it is played to its end; `names` then holds the names of the steps run.
pub fn play(
    table: &[u8],
    schedule: &[u8],
    site: &mut Site,
    names: &mut [u8; 256],
) -> Result<Played, Stop>
    requires { Fresh table.now site.old names.old }
    ensures { PlayedRight table.now schedule.now site.new names.new result }
{
    turns(table, Lead::Lent(schedule), site, names)
}

// Makes the schedule of a policy and plays it, likewise.
pub fn make(
    table: &[u8],
    policy: Policy,
    site: &mut Site,
    names: &mut [u8; 256],
) -> Result<Played, Stop>
    requires { Fresh table.now site.old names.old }
    ensures { PlayedRight table.now (schedule_by table.now policy) site.new names.new result }
{
    turns(table, Lead::Made(policy), site, names)
}

// Plays the lent schedule, or the one that the policy makes. One loop for both, so that the step stands in one place.
fn turns(
    table: &[u8],
    mut lead: Lead,
    site: &mut Site,
    names: &mut [u8; 256],
) -> Result<Played, Stop>
    requires { Fresh table.now site.old names.old }
    ensures { PlayedRight table.now (played_by table.now lead.entry) site.new names.new result }
{
    let n = table::access::actors(table);
    let mut actors = [Actor::fresh(); 8];
    let mut mask = 0;
    let mut last = 0;
    for i in 0..257 {
        if let Lead::Made(_) = lead {
            let own = actors[last];
            mask = if lead::was_quiet(table, last, own) {
                readiness::own_bit(table, mask, last, own, site)
            } else {
                readiness::ready_mask(table, n, mask, last, actors, site)
            };
        }
        let Some(a) = lead.turn(i, mask) else {
            return Ok(Played { steps: i, actors });
        };
        if n <= a {
            return Err(Stop::Absent(i as u32));
        }
        let r = actors[a];
        let k = r.position;
        if table::access::actions(table, a) <= k {
            return Err(Stop::Finished(i as u32));
        }
        match step::step(table, a, r, site) {
            Ok(after) => {
                names[i] = (32 * a + k) as u8;
                actors[a] = after;
                last = a;
            }
            Err(Hold::Waits) => return Err(Stop::Waiting(i as u32)),
            Err(Hold::Over) => return Err(Stop::Over(i as u32)),
        }
    }
    // no turn of the loop comes so far
    Ok(Played { steps: 257, actors })
}
