// One action's eight bytes: its kind, its fields in range, its list allowed, its unused bytes 0.
#![tactic(auto)]

ghost use Rattle.std.specs.Prelude.{◌≡◌, ◌+◌, ◌<◌, ◌≤◌, length, IsTrue, MatchResult, get_or, eqb, ltb};
ghost use Rattle.table.specs.Outcome.{demand as demanded, ◌⨾◌};
ghost use Rattle.table.specs.Format.{byte_at, q_at, place_of};
ghost use Rattle.table.specs.Kinds.{kind_number, form_of, nothing as none, actions, mutexes as some_mutexes};
ghost use Rattle.table.specs.Read.{check_of, fields_of, blanks, rest_clear, list_fits, list_allowed, communication_kind};
ghost use Rattle.table.specs.Answer.{outcome, fault_of};
ghost use Rattle.fields.specs.Parts.{Room, LimitsOf, Plain, Listed, row, rows_of};

use table::{Fault, Kind, bytes, demand};

// What the quick test asks of an action of a kind: what p and q lie under, and what b4 to b7 as one number are at most. Nothing lies under 0, so
// that a list is looked at by itself.
#[derive(Clone, Copy)]
struct Row {
    p: u8,
    q: u8,
    value: u32,
}

impl Row {
    fn new(p: u8, q: u8, value: u32) -> Row
        ensures { result ≡ row p q value }
    {
        Row { p, q, value }
    }
}

// What the checks of a table's actions go by, made once: its numbers of mailboxes and mutexes, and the quick test's rows by kind.
#[derive(Clone, Copy)]
pub struct Limits {
    mailboxes: u8,
    mutexes: u8,
    rows: [Row; 12],
}

impl Limits {
    // Those of a file that has a header.
    pub fn of(table: &[u8]) -> Limits
        requires { 4 ≤ length table.now }
        ensures { LimitsOf table.now result }
    {
        let mailboxes = table[2];
        let mutexes = table[3];
        Limits {
            mailboxes,
            mutexes,
            rows: [
                Row::new(8, 1, u32::MAX), // Set
                Row::new(8, 8, 0), // Add
                Row::new(8, 8, 0), // Lesser
                Row::new(mailboxes, 8, 0), // Send
                Row::new(mailboxes, 8, 0), // Receive
                Row::new(8, 0, 0), // TestAny
                Row::new(8, 0, 0), // WaitAny
                Row::new(mutexes, 1, 0), // Lock
                Row::new(mutexes, 1, 0), // Unlock
                Row::new(8, 0, 0), // MutexTest
                Row::new(8, 0, 0), // MutexWait
                Row::new(8, 1, 0), // Note
            ],
        }
    }

    // What p of a kind lies under. By a match, since taken from its row it makes the reading a seventh slower.
    fn under(&self, kind: Kind) -> u8
        ensures { result ≡ (get_or (rows_of self.now.mailboxes self.now.mutexes) (kind_number kind) (row 0 0 0)).p }
    {
        match kind {
            Kind::Send | Kind::Receive => self.mailboxes,
            Kind::Lock | Kind::Unlock => self.mutexes,
            _ => 8,
        }
    }
}

// An action. Most have no list and nothing wrong, which a few tests without a branch by kind show.
pub fn check(t: &[u8], first: usize, k: usize, limits: &Limits) -> Result<(), Fault>
    requires { Room t.now (place_of first k) × LimitsOf t.now limits.now }
    ensures { outcome result ≡ check_of t.now first k }
{
    if plain(t, first + 8 * k, limits) {
        Ok(())
    } else {
        exact(t, first, k, limits)
    }
}

// An action without a list that has nothing wrong.
fn plain(t: &[u8], at: usize, limits: &Limits) -> bool
    requires { Room t.now at × LimitsOf t.now limits.now }
    ensures { IsTrue result → Plain t.now at }
{
    let kind = usize::from(t[at]);
    kind < limits.rows.len()
        && t[at + 1] < limits.rows[kind].p
        && t[at + 2] < limits.rows[kind].q
        && t[at + 3] == 0
        && bytes::long(t, at + 4) <= limits.rows[kind].value
}

// An action, by its kind.
fn exact(t: &[u8], first: usize, k: usize, limits: &Limits) -> Result<(), Fault>
    requires { Room t.now (place_of first k) × LimitsOf t.now limits.now }
    ensures { outcome result ≡ check_of t.now first k }
{
    let at = first + 8 * k;
    let kind = Kind::try_from(t[at]).map_err(|_| Fault::Kind(at as u32))?;
    by_kind(t, first, k, kind, limits)
}

// The fields of a kind.
fn by_kind(t: &[u8], first: usize, k: usize, kind: Kind, limits: &Limits) -> Result<(), Fault>
    requires { Room t.now (place_of first k) × LimitsOf t.now limits.now }
    ensures { outcome result ≡ fields_of t.now first k (form_of (kind_number kind)) }
{
    let at = first + 8 * k;
    below(t, at, 1, limits.under(kind))?;
    match kind {
        Kind::Set => {
            zero(t, at, 2)?;
            zero(t, at, 3)
        }
        Kind::Add | Kind::Lesser | Kind::Send | Kind::Receive => {
            below(t, at, 2, 8)?;
            nothing(t, at)
        }
        Kind::Lock | Kind::Unlock | Kind::Note => {
            zero(t, at, 2)?;
            nothing(t, at)
        }
        Kind::TestAny | Kind::WaitAny => {
            let list = listed(t, at)?;
            communications(t, first, k, list)?;
            after(t, at, list.len())
        }
        Kind::MutexTest | Kind::MutexWait => {
            let list = listed(t, at)?;
            mutexes(t, at, list, limits)?;
            after(t, at, list.len())
        }
    }
}

// The numbers listed, from one to four.
fn listed(t: &[u8], at: usize) -> Result<&[u8], Fault>
    requires { Room t.now at }
    ensures { MatchResult result (λ list. Listed t.now at list.now) (λ fault. list_fits t.now at actions ≡ fault_of fault) }
{
    let z = usize::from(t[at + 3]);
    demand(1 <= z && z <= 4, Fault::Range(at as u32))?;
    Ok(&t[at + 4..at + 4 + z])
}

// Each is a Send or a Receive of the same actor, and lower.
fn communications(t: &[u8], first: usize, k: usize, list: &[u8]) -> Result<(), Fault>
    requires { Room t.now (place_of first k) × Listed t.now (place_of first k) list.now }
    ensures { outcome result ≡ list_allowed t.now first k actions }
{
    demand(
        list.iter().all(|x| usize::from(*x) < k && communicates(t[first + 8 * usize::from(*x)])),
        Fault::Listed((first + 8 * k) as u32),
    )
}

// The kind of a Send or a Receive.
fn communicates(kind: u8) -> bool
    ensures { result ≡ communication_kind kind }
{
    matches!(Kind::try_from(kind), Ok(Kind::Send | Kind::Receive))
}

// Each is a mutex.
fn mutexes(t: &[u8], at: usize, list: &[u8], limits: &Limits) -> Result<(), Fault>
    requires { Room t.now at × LimitsOf t.now limits.now × Listed t.now at list.now }
    ensures { outcome result ≡ list_fits t.now at some_mutexes }
{
    demand(
        list.iter().all(|x| *x < limits.mutexes),
        Fault::Range(at as u32),
    )
}

// A number below a limit.
fn below(t: &[u8], at: usize, i: usize, limit: u8) -> Result<(), Fault>
    requires { Room t.now at × (i < 8) }
    ensures { outcome result ≡ demanded (ltb (byte_at t.now (at + i)) limit) 7 at }
{
    demand(t[at + i] < limit, Fault::Range(at as u32))
}

// A byte without a use.
fn zero(t: &[u8], at: usize, i: usize) -> Result<(), Fault>
    requires { Room t.now at × (i < 8) }
    ensures { outcome result ≡ demanded (eqb (byte_at t.now (at + i)) 0) 9 at }
{
    demand(t[at + i] == 0, Fault::Unused(at as u32))
}

// Neither z nor b4 to b7 has a use.
fn nothing(t: &[u8], at: usize) -> Result<(), Fault>
    requires { Room t.now at }
    ensures { outcome result ≡ rest_clear t.now at none }
{
    zero(t, at, 3)?;
    blank(t, at, 0)
}

// Neither q nor a byte after the z numbers listed has a use.
fn after(t: &[u8], at: usize, z: usize) -> Result<(), Fault>
    requires { Room t.now at × (z ≤ 4) }
    ensures { outcome result ≡ (demanded (eqb (q_at t.now at) 0) 9 at ⨾ blanks t.now at z) }
{
    zero(t, at, 2)?;
    blank(t, at, z)
}

// The list bytes from a place on are 0. One comparison: a test of each byte takes a third more time on lists.
fn blank(t: &[u8], at: usize, from: usize) -> Result<(), Fault>
    requires { Room t.now at × (from ≤ 4) }
    ensures { outcome result ≡ blanks t.now at from }
{
    demand(
        u64::from(bytes::long(t, at + 4)) < 1 << (8 * from),
        Fault::Unused(at as u32),
    )
}
