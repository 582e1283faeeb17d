// What a step sees of the rest of the state.
#![tactic(auto)]

ghost use Rattle.std.specs.Prelude.{◌≡◌, ℕ, ◌<◌, cond, Bool};
ghost use Rattle.table.specs.Promise.{number as number_at};
ghost use Rattle.model.specs.Views.{listed};
ghost use Rattle.model.specs.Local.{is_seen, first as first_seen};
ghost use Rattle.model.specs.Step.{taken, waiting};
ghost use Rattle.state.specs.State.{step_as};
ghost use Rattle.look.specs.Parts.{seen_of, done_in, value_in, communications_seen, mutexes_seen, value_if, Gives};

use state::{Hold, Mail, Queues};
use table::Numbers;

// The first place in a list that is looked for, counted from 1, with the number listed there and the value of that communication (0 for a mutex).
#[derive(Clone, Copy)]
pub struct Found {
    pub place: usize,
    pub number: usize,
    pub value: u32,
}

// The first listed communication of an actor that is done.
pub fn communications(mail: &Mail, a: usize, list: Numbers) -> Option<Found>
    requires { (a < 8) × ((i : ℕ) → i < list.count → number_at list i < 32) }
    ensures { seen_of result ≡ communications_seen mail.now.comms a 1 (listed list) }
{
    first(list, |k| done(mail, a, k))
}

// The first listed mutex that an actor owns.
pub fn mutexes(queues: &Queues, a: usize, list: Numbers) -> Option<Found>
    requires { (i : ℕ) → i < list.count → number_at list i < 8 }
    ensures { seen_of result ≡ mutexes_seen queues.now.bytes a 1 (listed list) }
{
    first(list, |m| mutex::owner(queues, m, a).then_some(0))
}

// What a step is that waits until something is found.
pub fn awaited(seen: Option<Found>) -> Result<(), Hold>
    ensures { step_as result ≡ cond (is_seen (seen_of seen)) taken waiting }
{
    match seen {
        Some(_) => Ok(()),
        None => Err(Hold::Waits),
    }
}

// The first listed number at which a look gives a value.
fn first<F: Fn(usize) -> Option<u32>>(list: Numbers, look: F) -> Option<Found>
    requires { (i : ℕ) → i < list.count → F.pre look (number_at list i) }
    ensures { (test : ℕ → Bool) (value : ℕ → ℕ) → Gives (F.post look) test value list
        → seen_of result ≡ first_seen test value 1 (listed list) }
{
    for (i, number) in list.all.iter().take(list.count).enumerate() {
        if let Some(value) = look(*number) {
            return Some(Found {
                place: i + 1,
                number: *number,
                value,
            });
        }
    }
    None
}

// The value of an actor's communication k, if it is done.
fn done(mail: &Mail, a: usize, k: usize) -> Option<u32>
    requires { (a < 8) × (k < 32) }
    ensures { result ≡ value_if (done_in mail.now.comms a) (value_in mail.now.comms a) k }
{
    let code = mail.comms[32 * a + k];
    if code % 4 < 2 {
        return None;
    }
    Some((code / 1024) as u32)
}
