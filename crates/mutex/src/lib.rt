// The mutexes' queues: Lock joins a queue's end or adds to a depth, Unlock takes off a depth or leaves, and the first in the queue owns the mutex.
#![tactic(auto)]

ghost use Rattle.std.specs.Prelude.{◌≡◌, ◌%◌, ◌<◌, ◌≤◌, eqb, length, position};
ghost use Rattle.model.specs.Site.{upd};
ghost use Rattle.model.specs.Mutex.{owns, join as joined, leave as left};
ghost use Rattle.model.specs.Depths.{depth_in};
ghost use Rattle.state.specs.State.{queues_of};

use state::Queues;

// Lock: a queued actor's depth rises by 1; an actor that is not queued joins the end, with depth 1.
pub fn join(queues: &mut Queues, m: usize, a: usize)
    requires { (m < 8) × (a < 8)
        × (length (joined (queues_of queues.old.bytes m) a) ≤ 8) × (depth_in (joined (queues_of queues.old.bytes m) a) a ≤ 32) }
    ensures { queues_of queues.new.bytes ≡ upd eqb (queues_of queues.old.bytes) m (joined (queues_of queues.old.bytes m) a) }
{
    let bytes = &mut queues.bytes;
    let size = 9 * m;
    let at = size + 1;
    let n = usize::from(bytes[size]);
    match place(&bytes[at..at + n], a) {
        Some(i) => bytes[at + i] += 8,
        None => {
            bytes[at + n] = a as u8;
            bytes[size] += 1;
        }
    }
}

// Unlock: a queued actor's depth falls by 1, owner or not; at 0 it leaves, and those behind it move up.
pub fn leave(queues: &mut Queues, m: usize, a: usize)
    requires { (m < 8) × (a < 8) }
    ensures { queues_of queues.new.bytes ≡ upd eqb (queues_of queues.old.bytes) m (left (queues_of queues.old.bytes m) a) }
{
    let bytes = &mut queues.bytes;
    let size = 9 * m;
    let at = size + 1;
    let n = usize::from(bytes[size]);
    let Some(i) = place(&bytes[at..at + n], a) else {
        return;
    };
    if 8 <= bytes[at + i] {
        bytes[at + i] -= 8;
        return;
    }
    bytes.copy_within(at + i + 1..at + n, at + i);
    bytes[size] -= 1;
}

// Whether an actor owns a mutex: whether it is the first in its queue.
pub fn owner(queues: &Queues, m: usize, a: usize) -> bool
    requires { m < 8 }
    ensures { result ≡ owns (queues_of queues.now.bytes m) a }
{
    let bytes = &queues.bytes;
    let size = 9 * m;
    bytes[size] != 0 && a == usize::from(bytes[size + 1] % 8)
}

// The place of an actor's entry in a queue.
fn place(entries: &[u8], a: usize) -> Option<usize>
    ensures { result ≡ position (λ b. eqb a (b % 8)) entries.now }
{
    entries.iter().position(|b| a == usize::from(*b % 8))
}
