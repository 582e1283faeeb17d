// What a step touches, for a verdict that asks of many pairs of steps: it passes the steps one after another, and keeps by resource the latest place
// among those that post to it, and among those that look at it.
#![tactic(auto)]

ghost use Rattle.std.specs.Prelude.{◌≡◌, ℕ, Some, List, [], ◌∷◌, ◌<◌, length, replicate};
ghost use Rattle.table.specs.Promise.{WellFormed, number as number_at};
ghost use Rattle.model.specs.Site.{name};
ghost use Rattle.model.specs.Views.{listed, posts as posts_of};
ghost use Rattle.model.specs.Pair.{post_at};
ghost use Rattle.names.specs.Steps.{Stands};
ghost use Rattle.footprint.specs.Resources.{resource as resource_of, numbered, all_of, awaited_by, SmallPost, Unnumbered};
ghost use Rattle.footprint.specs.Latest.{Posted, Passed, Looked, one_of, Gives};

use table::{Action, Kind, Numbers, within};

// The kinds that post, each with a group of eight resources, one for a mailbox or a mutex; of Notes' one alone is used, the journal. They are numbers
// and no Kinds, since a resource's number is made of its kind's.
const SEND: usize = Kind::Send as usize;

const RECEIVE: usize = Kind::Receive as usize;

const LOCK: usize = Kind::Lock as usize;

const UNLOCK: usize = Kind::Unlock as usize;

const NOTE: usize = Kind::Note as usize;

// By resource, the latest place among the steps so far that post to it, and among those that look at it; 0 where there is none.
#[derive(Clone, Copy)]
pub struct Latest {
    pub posts: [u16; 96],
    pub looks: [u16; 96],
    pub ghost posts_long: { length posts ≡ 96 },
    pub ghost looks_long: { length looks ≡ 96 },
}

impl Latest {
    // Of no steps.
    pub fn new() -> Self
        ensures { (result.posts ≡ replicate 96 0) × (result.looks ≡ replicate 96 0) }
    {
        Latest {
            posts: [0; 96],
            looks: [0; 96],
        }
    }

    // The latest place of the steps so far that this step must not change places with, 0 where there is none. The step is then one of those so far,
    // with its own place. A Send, Receive, Lock or Unlock is told by the number of its kind: one test for the four.
    pub fn pass(&mut self, table: &[u8], a: usize, k: usize, place: u16) -> u16
        requires { WellFormed table.now × Stands table.now (name a k) }
        ensures { Passed table.now (name a k) place self.old.posts self.old.looks self.new.posts self.new.looks result }
    {
        let kind = within::kind(table, a, k);
        if is_numbered(kind) {
            return self.post(kind, within::target(table, a, k), place);
        }
        self.pass_other(table, a, k, place)
    }

    // The same of any other step: it looks, or it is a Note, or it touches nothing.
    fn pass_other(&mut self, table: &[u8], a: usize, k: usize, place: u16) -> u16
        requires { WellFormed table.now × Stands table.now (name a k) × Unnumbered (post_at table.now a k) }
        ensures { Passed table.now (name a k) place self.old.posts self.old.looks self.new.posts self.new.looks result }
    {
        match within::action(table, a, k) {
            Action::TestAny { list, .. } | Action::WaitAny { list, .. } => {
                self.look_at_each(list, place, |k| awaited(within::action(table, a, k)))
            }
            Action::MutexTest { list, .. } | Action::MutexWait { list, .. } => {
                self.look_at_each(list, place, |m| Some(resource(UNLOCK, m)))
            }
            Action::Note { .. } => self.post(NOTE, 0, place),
            _ => 0,
        }
    }

    // A post to a mailbox's side, a mutex or the journal. It is dependent on the looks at it, and on the posts to it: Unlocks alone are independent
    // of one another.
    fn post(&mut self, kind: usize, number: usize, place: u16) -> u16
        requires { (kind < 12) × (number < 8) }
        ensures posts { Posted kind (resource_of kind number) place self.old.posts self.old.looks self.new.posts result }
        ensures looks { self.new.looks ≡ self.old.looks }
    {
        let r = resource(kind, number);
        let before = self.posts[r];
        self.posts[r] = before.max(place);
        if kind == UNLOCK {
            return self.looks[r];
        }
        before.max(self.looks[r])
    }

    // A look at the resource of each listed number that has one.
    fn look_at_each<F: Fn(usize) -> Option<usize>>(
        &mut self,
        list: Numbers,
        place: u16,
        resource: F,
    ) -> u16
        requires may { (i : ℕ) → i < list.count → F.pre resource (number_at list i) }
        requires fits { (i r : ℕ) → i < list.count → F.post resource (number_at list i) (Some r) → r < 96 }
        ensures posts { self.new.posts ≡ self.old.posts }
        ensures looks { (f : ℕ → List ℕ) → Gives (F.post resource) f list
            → Looked (all_of f (listed list)) place self.old.posts self.old.looks self.new.looks result }
    {
        let mut met = 0;
        for k in list.all.iter().take(list.count) {
            if let Some(r) = resource(*k) {
                met = met.max(self.look_at(r, place));
            }
        }
        met
    }

    // A look at a resource: it is dependent on the posts to it.
    fn look_at(&mut self, r: usize, place: u16) -> u16
        requires { r < 96 }
        ensures posts { self.new.posts ≡ self.old.posts }
        ensures looks { Looked (r ∷ []) place self.old.posts self.old.looks self.new.looks result }
    {
        self.looks[r] = self.looks[r].max(place);
        self.posts[r]
    }
}

// Whether a kind is Send, Receive, Lock or Unlock.
fn is_numbered(kind: usize) -> bool
    ensures { result ≡ numbered kind }
{
    matches!(kind, SEND | RECEIVE | LOCK | UNLOCK)
}

// A group begins at eight times its kind.
fn resource(kind: usize, number: usize) -> usize
    requires { (kind < 12) × (number < 8) }
    ensures { (result ≡ resource_of kind number) × (result < 96) }
{
    8 * kind + number
}

// What a listed communication awaits: a Send a Receive on its mailbox, and a Receive a Send.
fn awaited(x: Action) -> Option<usize>
    requires { SmallPost (posts_of x) }
    ensures { one_of result ≡ awaited_by (posts_of x) }
{
    match x {
        Action::Send { mailbox, .. } => Some(resource(RECEIVE, mailbox)),
        Action::Receive { mailbox, .. } => Some(resource(SEND, mailbox)),
        _ => None,
    }
}
