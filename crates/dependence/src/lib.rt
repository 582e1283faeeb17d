// The pair verdict: whether two steps are dependent, by a table of comparison codes.
#![tactic(auto)]

ghost use Rattle.std.specs.Prelude.{◌≡◌, true};
ghost use Rattle.table.specs.Decode.{action_of};
ghost use Rattle.table.specs.Promise.{WellFormed};
ghost use Rattle.trace.specs.Order.{has};
ghost use Rattle.model.specs.Site.{name};
ghost use Rattle.model.specs.Views.{listed};
ghost use Rattle.model.specs.Pair.{any_of, depends};
ghost use Rattle.names.specs.Steps.{Stands, Each};
ghost use Rattle.actions.specs.Fields.{list_of};
ghost use Rattle.dependence.specs.Codes.{is_on, code_of, lists_own, comparison};

use Compared::{Always, ListedMutex, ListedReceive, ListedSend, Never as No, OneMailbox, OneMutex};
use table::{Action, Kind, Numbers, within};

// What is compared of two actions, of which the first has the higher kind, or both the same.
#[derive(Clone, Copy)]
enum Compared {
    // nothing: they are independent
    Never,
    // whether they are on one mailbox
    OneMailbox,
    // whether the first lists a Receive on the other's mailbox, a Send's
    ListedReceive,
    // whether the first lists a Send on the other's mailbox, a Receive's
    ListedSend,
    // whether they are on one mutex
    OneMutex,
    // whether the first lists the other's mutex, an Unlock's
    ListedMutex,
    // nothing: they are dependent
    Always,
}

// Kind against kind, which comparison applies. The columns are the kinds in the order of the rows.
#[rattlefmt::skip]
const CODES: [[Compared; 12]; 12] = [
    [No, No, No, No, No, No, No, No, No, No, No, No], // Set
    [No, No, No, No, No, No, No, No, No, No, No, No], // Add
    [No, No, No, No, No, No, No, No, No, No, No, No], // Lesser
    [No, No, No, OneMailbox, No, ListedReceive, ListedReceive, No, No, No, No, No], // Send
    [No, No, No, No, OneMailbox, ListedSend, ListedSend, No, No, No, No, No], // Receive
    [No, No, No, ListedReceive, ListedSend, No, No, No, No, No, No, No], // TestAny
    [No, No, No, ListedReceive, ListedSend, No, No, No, No, No, No, No], // WaitAny
    [No, No, No, No, No, No, No, OneMutex, No, No, No, No], // Lock
    [No, No, No, No, No, No, No, No, No, ListedMutex, ListedMutex, No], // Unlock
    [No, No, No, No, No, No, No, No, ListedMutex, No, No, No], // MutexTest
    [No, No, No, No, No, No, No, No, ListedMutex, No, No, No], // MutexWait
    [No, No, No, No, No, No, No, No, No, No, No, Always], // Note
];

// The same in memory: a constant array of an enum is built anew at each use.
static CODES_KEPT: [[Compared; 12]; 12] = CODES;

// Whether two steps of the table, actor·action each, are dependent.
pub fn dependent(table: &[u8], a: usize, k: usize, b: usize, l: usize) -> bool
    requires { WellFormed table.now × Stands table.now (name a k) × Stands table.now (name b l) }
    ensures { result ≡ depends table.now (name a k) (name b l) }
{
    if a == b {
        return true;
    }
    let x = within::action(table, a, k);
    let y = within::action(table, b, l);
    let i = actions::kind(x);
    let j = actions::kind(y);
    let code = code(i, j);
    if i.number() < j.number() {
        return compare(code, table, b, y, x);
    }
    compare(code, table, a, x, y)
}

// The table's entry for two kinds, which is the same in either order.
fn code(i: Kind, j: Kind) -> Compared
    ensures { (result ≡ code_of i j) × (result ≡ code_of j i) }
{
    CODES_KEPT[i.number()][j.number()]
}

// What a code compares of x, of actor a, and y.
fn compare(code: Compared, table: &[u8], a: usize, x: Action, y: Action) -> bool
    requires { WellFormed table.now × (lists_own code ≡ true → Each (λ k. Stands table.now (name a k)) (list_of x)) }
    ensures { result ≡ comparison code (action_of table.now a) x y }
{
    let n = actions::target(y);
    match code {
        Compared::Never => false,
        OneMailbox | OneMutex => actions::target(x) == n,
        ListedReceive => lists_mail(table, a, actions::list(x), Kind::Receive, n),
        ListedSend => lists_mail(table, a, actions::list(x), Kind::Send, n),
        ListedMutex => lists_mutex(actions::list(x), n),
        Always => true,
    }
}

// A list of actor a's actions names one of this kind on mailbox m.
fn lists_mail(table: &[u8], a: usize, list: Numbers, kind: Kind, m: usize) -> bool
    requires { WellFormed table.now × Each (λ k. Stands table.now (name a k)) (listed list) }
    ensures { result ≡ any_of (λ k. is_on kind m (action_of table.now a k)) (listed list) }
{
    list.all.iter().take(list.count).any(|k| {
        let x = within::action(table, a, *k);
        actions::kind(x) == kind && actions::target(x) == m
    })
}

// A list names mutex m.
fn lists_mutex(list: Numbers, m: usize) -> bool
    ensures { result ≡ has (listed list) m }
{
    list.all.iter().take(list.count).any(|n| m == *n)
}
