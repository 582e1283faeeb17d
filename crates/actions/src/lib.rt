// An action by its kind, the mailbox or mutex that it is on, and what it lists.
#![tactic(auto)]

ghost use Rattle.std.specs.Prelude.{◌≡◌};
ghost use Rattle.model.specs.Views.{listed};
ghost use Rattle.actions.specs.Fields.{kind_of, target_of, list_of};

use table::{Action, Kind, Numbers};

// An action's kind.
pub fn kind(x: Action) -> Kind
    ensures { result ≡ kind_of x }
{
    match x {
        Action::Set { .. } => Kind::Set,
        Action::Add { .. } => Kind::Add,
        Action::Lesser { .. } => Kind::Lesser,
        Action::Send { .. } => Kind::Send,
        Action::Receive { .. } => Kind::Receive,
        Action::TestAny { .. } => Kind::TestAny,
        Action::WaitAny { .. } => Kind::WaitAny,
        Action::Lock { .. } => Kind::Lock,
        Action::Unlock { .. } => Kind::Unlock,
        Action::MutexTest { .. } => Kind::MutexTest,
        Action::MutexWait { .. } => Kind::MutexWait,
        Action::Note { .. } => Kind::Note,
    }
}

// The mailbox of a Send or a Receive, the mutex of a Lock or an Unlock.
// No Option: a kind tells who has one before this is asked, so that None would be a case that no caller has; 0 for the others.
pub fn target(x: Action) -> usize
    ensures { result ≡ target_of x }
{
    match x {
        Action::Send { mailbox, .. } | Action::Receive { mailbox, .. } => mailbox,
        Action::Lock { mutex } | Action::Unlock { mutex } => mutex,
        _ => 0,
    }
}

// What a Test or a Wait lists; nothing for another action.
pub fn list(x: Action) -> Numbers
    ensures { listed result ≡ list_of x }
{
    match x {
        Action::TestAny { list, .. }
        | Action::WaitAny { list, .. }
        | Action::MutexTest { list, .. }
        | Action::MutexWait { list, .. } => list,
        _ => Numbers {
            count: 0,
            all: [0; 4],
        },
    }
}
