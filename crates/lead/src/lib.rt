// Who leads a schedule, the lent entries or a policy: whose turn it is, and what a policy may take as known of the last step.
#![tactic(auto)]

ghost use Rattle.std.specs.Prelude.{◌≡◌, true, ◌-◌, ◌<◌, ◌≤◌};
ghost use Rattle.table.specs.Format.{actors_of, count_of};
ghost use Rattle.table.specs.Decode.{action_of};
ghost use Rattle.table.specs.Promise.{WellFormed};
ghost use Rattle.model.specs.Views.{posts};
ghost use Rattle.lead.specs.Parts.{DueRight, Unheard};

use policy::Policy;
use state::Actor;
use table::Action;

// Who says whose turn it is: the entries of a lent schedule, or a policy, which makes one.
#[derive(Clone, Copy)]
pub enum Lead<'a> {
    Lent(&'a [u8]),
    Made(Policy),
}

impl<'a> Lead<'a> {
    // The actor whose turn it is after i turns, where those of a mask are ready; none at the schedule's end. A lent schedule asks no mask.
    #[tactic(auto, using(std::proofs::lemmas::Nat::zero_from_ones))]
    pub fn turn(&mut self, i: usize, mask: u32) -> Option<usize>
        ensures { DueRight self.old i mask result self.new }
    {
        match self {
            Lead::Lent(schedule) => schedule.get(i).map(|actor| usize::from(*actor)),
            Lead::Made(policy) => {
                if mask == 0 {
                    return None;
                }
                Some(policy.turn(mask))
            }
        }
    }
}

// Whether an actor has taken a step, and the last one posted nothing that another may wait for.
pub fn was_quiet(table: &[u8], a: usize, r: Actor) -> bool
    requires { WellFormed table.now × (a < actors_of table.now) × (r.position ≤ count_of table.now a) }
    ensures { result ≡ true → (0 < r.position) × Unheard (posts (action_of table.now a (r.position - 1))) }
{
    let k = r.position;
    if k == 0 {
        return false;
    }
    !matches!(
        table::within::action(table, a, k - 1),
        Action::Send { .. } | Action::Receive { .. } | Action::Lock { .. } | Action::Unlock { .. }
    )
}
