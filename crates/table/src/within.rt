// An action of an accepted table, read in place. The reader's promise puts its bytes within the file, so no place is tested.
ghost use Rattle.std.specs.Prelude.{◌≡◌, ◌+◌, ◌<◌, ◌≤◌, length};
ghost use Rattle.table.specs.Format.{actors_of, count_of, offset_of, place_of, kind_at, p_at, q_at};
ghost use Rattle.table.specs.Decode.{action_of, decode as decoded, numbers_at};
ghost use Rattle.table.specs.Promise.{WellFormed};

use crate::{Action, Kind, Numbers, bytes};

// An action, by its actor and its number.
pub fn action(table: &[u8], actor: usize, k: usize) -> Action
    requires { WellFormed table.now × (actor < actors_of table.now) × (k < count_of table.now actor) }
    ensures { result ≡ action_of table.now actor k }
{
    decode(table, place(table, actor, k))
}

// The number of its kind.
pub fn kind(table: &[u8], actor: usize, k: usize) -> usize
    requires { WellFormed table.now × (actor < actors_of table.now) × (k < count_of table.now actor) }
    ensures { result ≡ kind_at table.now (place_of (offset_of table.now actor) k) }
{
    usize::from(table[place(table, actor, k)])
}

// What its p is: a mailbox, a mutex or a cell, by the kind.
pub fn target(table: &[u8], actor: usize, k: usize) -> usize
    requires { WellFormed table.now × (actor < actors_of table.now) × (k < count_of table.now actor) }
    ensures { result ≡ p_at table.now (place_of (offset_of table.now actor) k) }
{
    usize::from(table[place(table, actor, k) + 1])
}

// Where its eight bytes stand.
fn place(table: &[u8], actor: usize, k: usize) -> usize
    requires { WellFormed table.now × (actor < actors_of table.now) × (k < count_of table.now actor) }
    ensures { (result ≡ place_of (offset_of table.now actor) k) × (result + 8 ≤ length table.now) }
{
    bytes::word(table, 4 + 4 * actor) + 8 * k
}

#[tactic(auto, unfolding(crate::specs::Decode::decode_as))]
fn decode(t: &[u8], at: usize) -> Action
    requires { at + 8 ≤ length t.now }
    ensures { result ≡ decoded t.now at }
{
    let p = usize::from(t[at + 1]);
    match Kind::try_from(t[at]) {
        Ok(Kind::Set) => Action::Set {
            cell: p,
            value: bytes::long(t, at + 4),
        },
        Ok(Kind::Add) => Action::Add {
            cell: p,
            other: q(t, at),
        },
        Ok(Kind::Lesser) => Action::Lesser {
            cell: p,
            other: q(t, at),
        },
        Ok(Kind::Send) => Action::Send {
            mailbox: p,
            cell: q(t, at),
        },
        Ok(Kind::Receive) => Action::Receive {
            mailbox: p,
            cell: q(t, at),
        },
        Ok(Kind::TestAny) => Action::TestAny {
            result: p,
            list: numbers(t, at),
        },
        Ok(Kind::WaitAny) => Action::WaitAny {
            result: p,
            list: numbers(t, at),
        },
        Ok(Kind::Lock) => Action::Lock { mutex: p },
        Ok(Kind::Unlock) => Action::Unlock { mutex: p },
        Ok(Kind::MutexTest) => Action::MutexTest {
            result: p,
            list: numbers(t, at),
        },
        Ok(Kind::MutexWait) => Action::MutexWait {
            result: p,
            list: numbers(t, at),
        },
        Ok(Kind::Note) | Err(_) => Action::Note { cell: p },
    }
}

// The q of the action at an offset. Read in the arms that have one, and not before them: so decoding takes a fifth less time.
fn q(t: &[u8], at: usize) -> usize
    requires { at + 8 ≤ length t.now }
    ensures { result ≡ q_at t.now at }
{
    usize::from(t[at + 2])
}

// The list of the action at an offset.
fn numbers(t: &[u8], at: usize) -> Numbers
    requires { at + 8 ≤ length t.now }
    ensures { result ≡ numbers_at t.now at }
{
    Numbers {
        count: usize::from(t[at + 3]),
        all: [t[at + 4], t[at + 5], t[at + 6], t[at + 7]].map(usize::from),
    }
}
