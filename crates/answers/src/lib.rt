// What the public calls answer, each a `Result`, and their refusals. `specs/Answers` says what each stands for in the documents.
#![tactic(auto)]

ghost use Rattle.std.specs.Prelude.{◌≡◌};
ghost use Rattle.table.specs.Outcome.{number_of, position_of};
ghost use Rattle.model.specs.Schedule.{first_numbers, second_numbers};
ghost use Rattle.answers.specs.declared.Refusal.TheVariants.{Table};
ghost use Rattle.answers.specs.Answers.{numbers_of, recording_of, stop_of, refusal_of};

use table::Fault;

// Why a schedule stops before its end, with the entry's index: it names no actor, a finished one, one that waits, or one whose Add would run over.
#[derive(Clone, Copy)]
pub enum Stop {
    Absent(u32),
    Finished(u32),
    Waiting(u32),
    Over(u32),
}

impl Stop {
    // The number, by which of the schedules it is: the first, or the only one, or the second.
    pub fn number(self, schedule: Recording) -> u32
        ensures { result ≡ number_of (stop_of (numbers_of (recording_of schedule)) self) }
    {
        match schedule {
            Recording::First => match self {
                Stop::Absent(_) => 11,
                Stop::Finished(_) => 12,
                Stop::Waiting(_) => 13,
                Stop::Over(_) => 21,
            },
            Recording::Second => match self {
                Stop::Absent(_) => 14,
                Stop::Finished(_) => 15,
                Stop::Waiting(_) => 16,
                Stop::Over(_) => 22,
            },
        }
    }

    // The entry's index.
    pub fn position(self) -> u32
        ensures first { result ≡ position_of (stop_of first_numbers self) }
        ensures second { result ≡ position_of (stop_of second_numbers self) }
    {
        match self {
            Stop::Absent(i) | Stop::Finished(i) | Stop::Waiting(i) | Stop::Over(i) => i,
        }
    }
}

// Why a call refuses: the table, a schedule, a step's name that is not in the table, a lent buffer that is too small, or, for a route, schedules that
// differ.
#[derive(Clone, Copy)]
pub enum Refusal {
    Table(Fault),
    ReportRoom,
    First(Stop),
    Second(Stop),
    NoStep,
    RouteRoom,
    Different,
    PageRoom,
    ScheduleRoom,
}

impl Refusal {
    // The documents' number.
    pub fn number(self) -> u32
        ensures { result ≡ number_of (refusal_of self) }
    {
        match self {
            Refusal::Table(fault) => fault.number(),
            Refusal::ReportRoom => 10,
            Refusal::First(stop) => stop.number(Recording::First),
            Refusal::Second(stop) => stop.number(Recording::Second),
            Refusal::NoStep => 17,
            Refusal::RouteRoom => 18,
            Refusal::Different => 19,
            Refusal::PageRoom => 20,
            Refusal::ScheduleRoom => 23,
        }
    }

    // An action's offset, an entry's index, or 0.
    pub fn position(self) -> u32
        ensures { result ≡ position_of (refusal_of self) }
    {
        match self {
            Refusal::Table(fault) => fault.position(),
            Refusal::First(stop) | Refusal::Second(stop) => stop.position(),
            Refusal::ReportRoom
            | Refusal::NoStep
            | Refusal::RouteRoom
            | Refusal::Different
            | Refusal::PageRoom
            | Refusal::ScheduleRoom => 0,
        }
    }
}

impl From<Fault> for Refusal {
    ghost from_gives = { λ fault refusal. refusal ≡ Table fault };

    fn from(fault: Fault) -> Refusal {
        Refusal::Table(fault)
    }
}

// Whether every actor is finished, nobody is ready although not, or the site is going.
#[derive(Clone, Copy)]
pub enum Ending {
    Finished,
    Stuck,
    Going,
}

// Which actors are ready, a bit each, how many are, and the ending.
#[derive(Clone, Copy)]
pub struct Readiness {
    pub mask: u32,
    pub count: u32,
    pub ending: Ending,
}

// Whether two steps are dependent.
#[derive(Clone, Copy, PartialEq, Eq)]
pub enum PairVerdict {
    Independent,
    Dependent,
}

// Whether a chain of exchanges turns the first schedule, or its part, into the second; and how many pairs of steps were compared.
#[derive(Clone, Copy, PartialEq, Eq)]
pub enum Comparison {
    Same(u32),
    Different(u32),
}

// One of two recordings.
#[derive(Clone, Copy)]
pub enum Recording {
    First,
    Second,
}

// A part of one of two recordings: from which entry on, and how many entries.
#[derive(Clone, Copy)]
pub struct Part {
    pub recording: Recording,
    pub from: usize,
    pub length: usize,
}
