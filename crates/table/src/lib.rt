// The task table: its actions, the reader's refusals, and what stands in an accepted table, read in place.
#![tactic(auto)]

ghost use Rattle.std.specs.Prelude.{◌≡◌, ◌<◌, MatchResult};
ghost use Rattle.table.specs.Outcome.{demand as demanded, number_of, position_of};
ghost use Rattle.table.specs.Kinds.{kind_number, last_kind};
ghost use Rattle.table.specs.Answer.{fault_of, outcome};

pub mod access;
pub mod bytes;
pub mod within;

// The numbers that a list names: the first `count` of `all`. No heap, so a list of at most four is an array with its count.
#[derive(Clone, Copy)]
pub struct Numbers {
    pub count: usize,
    pub all: [usize; 4],
}

// An action, decoded.
#[derive(Clone, Copy)]
pub enum Action {
    Set { cell: usize, value: u32 },
    Add { cell: usize, other: usize },
    Lesser { cell: usize, other: usize },
    Send { mailbox: usize, cell: usize },
    Receive { mailbox: usize, cell: usize },
    TestAny { result: usize, list: Numbers },
    WaitAny { result: usize, list: Numbers },
    Lock { mutex: usize },
    Unlock { mutex: usize },
    MutexTest { result: usize, list: Numbers },
    MutexWait { result: usize, list: Numbers },
    Note { cell: usize },
}

// An action's kind, in the order of their numbers.
#[derive(Clone, Copy, Debug, PartialEq, Eq)]
pub enum Kind {
    Set,
    Add,
    Lesser,
    Send,
    Receive,
    TestAny,
    WaitAny,
    Lock,
    Unlock,
    MutexTest,
    MutexWait,
    Note,
}

impl Kind {
    // Document 01's number of the kind, an action's first byte.
    pub fn number(self) -> usize
        ensures { result ≡ kind_number self }
    {
        self as usize
    }
}

// A byte that is no kind's number.
#[derive(Clone, Copy, Debug, PartialEq, Eq)]
pub struct UnknownKind;

impl TryFrom<u8> for Kind {
    type Error = UnknownKind;

    ghost try_from_gives = { λ byte r. MatchResult r (λ kind. kind_number kind ≡ byte) (λ _. last_kind < byte) };

    fn try_from(byte: u8) -> Result<Kind, UnknownKind> {
        match byte {
            0 => Ok(Kind::Set),
            1 => Ok(Kind::Add),
            2 => Ok(Kind::Lesser),
            3 => Ok(Kind::Send),
            4 => Ok(Kind::Receive),
            5 => Ok(Kind::TestAny),
            6 => Ok(Kind::WaitAny),
            7 => Ok(Kind::Lock),
            8 => Ok(Kind::Unlock),
            9 => Ok(Kind::MutexTest),
            10 => Ok(Kind::MutexWait),
            11 => Ok(Kind::Note),
            _ => Err(UnknownKind),
        }
    }
}

// The first thing that is wrong with a table, with the offset of the action that it is in.
#[derive(Clone, Copy, Debug, PartialEq, Eq)]
pub enum Fault {
    Short,
    Edition,
    Counts,
    Directory,
    Length,
    Kind(u32),
    Range(u32),
    Listed(u32),
    Unused(u32),
}

impl Fault {
    // Document 01's number of the refusal.
    pub fn number(self) -> u32
        ensures { result ≡ number_of (fault_of self) }
    {
        match self {
            Fault::Short => 1,
            Fault::Edition => 2,
            Fault::Counts => 3,
            Fault::Directory => 4,
            Fault::Length => 5,
            Fault::Kind(_) => 6,
            Fault::Range(_) => 7,
            Fault::Listed(_) => 8,
            Fault::Unused(_) => 9,
        }
    }

    // The refusal's position, 0 where it is in no action.
    pub fn position(self) -> u32
        ensures { result ≡ position_of (fault_of self) }
    {
        match self {
            Fault::Short | Fault::Edition | Fault::Counts | Fault::Directory | Fault::Length => 0,
            Fault::Kind(at) | Fault::Range(at) | Fault::Listed(at) | Fault::Unused(at) => at,
        }
    }
}

// One check: the condition, or the fault that it is where it fails.
pub fn demand(condition: bool, fault: Fault) -> Result<(), Fault>
    ensures { outcome result ≡ demanded condition (number_of (fault_of fault)) (position_of (fault_of fault)) }
{
    if condition { Ok(()) } else { Err(fault) }
}
