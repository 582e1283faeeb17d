// The calls' answers as the structs of `include/order.h`. `refusal` is 0 where accepted, and then the answer follows; otherwise it is the refusal's number,
// with its position. What does not apply is 0. A remainder is always given.
#![tactic(auto)]

ghost use Rattle.std.specs.Prelude.{◌≡◌};
ghost use Rattle.table.specs.Answer.{outcome};
ghost use Rattle.answers.specs.Answers.{length_result, ready_result, pair_result, same_result, part_of};
ghost use Rattle.c_answers.specs.Fields.{check_fields, length_fields, ready_fields, pair_fields, same_fields, remainder_fields};

use answers::{Comparison, Ending, PairVerdict, Part, Readiness, Recording, Refusal};
use table::Fault;

// The refusal's number and position; 0 and 0 where the table is accepted.
#[repr(C)]
#[derive(Clone, Copy)]
pub struct OrderCheck {
    pub refusal: u32,
    pub position: u32,
}

impl From<Result<(), Fault>> for OrderCheck {
    ghost from_gives = { λ answer fields. fields ≡ check_fields (outcome answer) };

    fn from(answer: Result<(), Fault>) -> OrderCheck {
        match answer {
            Ok(()) => OrderCheck {
                refusal: 0,
                position: 0,
            },
            Err(fault) => OrderCheck {
                refusal: fault.number(),
                position: fault.position(),
            },
        }
    }
}

// The refusal, or the length of what was written.
#[repr(C)]
#[derive(Clone, Copy)]
pub struct OrderLength {
    pub refusal: u32,
    pub position: u32,
    pub length: u32,
}

impl From<Result<u32, Refusal>> for OrderLength {
    ghost from_gives = { λ answer fields. fields ≡ length_fields (length_result answer) };

    fn from(answer: Result<u32, Refusal>) -> OrderLength {
        match answer {
            Ok(length) => OrderLength {
                refusal: 0,
                position: 0,
                length,
            },
            Err(r) => OrderLength {
                refusal: r.number(),
                position: r.position(),
                length: 0,
            },
        }
    }
}

// The refusal, or the ready answer.
#[repr(C)]
#[derive(Clone, Copy)]
pub struct OrderReady {
    pub refusal: u32,
    pub position: u32,
    pub mask: u32,
    pub count: u32,
    pub ending: u32,
}

impl From<Result<Readiness, Refusal>> for OrderReady {
    ghost from_gives = { λ answer fields. fields ≡ ready_fields (ready_result answer) };

    fn from(answer: Result<Readiness, Refusal>) -> OrderReady {
        match answer {
            Ok(now) => OrderReady {
                refusal: 0,
                position: 0,
                mask: now.mask,
                count: now.count,
                ending: match now.ending {
                    Ending::Finished => 0,
                    Ending::Stuck => 1,
                    Ending::Going => 2,
                },
            },
            Err(r) => OrderReady {
                refusal: r.number(),
                position: r.position(),
                mask: 0,
                count: 0,
                ending: 0,
            },
        }
    }
}

// The refusal, or the verdict on two steps: 0 independent, 1 dependent.
#[repr(C)]
#[derive(Clone, Copy)]
pub struct OrderPair {
    pub refusal: u32,
    pub position: u32,
    pub verdict: u32,
}

impl From<Result<PairVerdict, Refusal>> for OrderPair {
    ghost from_gives = { λ answer fields. fields ≡ pair_fields (pair_result answer) };

    fn from(answer: Result<PairVerdict, Refusal>) -> OrderPair {
        match answer {
            Ok(verdict) => OrderPair {
                refusal: 0,
                position: 0,
                verdict: match verdict {
                    PairVerdict::Independent => 0,
                    PairVerdict::Dependent => 1,
                },
            },
            Err(r) => OrderPair {
                refusal: r.number(),
                position: r.position(),
                verdict: 0,
            },
        }
    }
}

// The refusal, or the verdict on two schedules, 0 different, 1 same, and the number of pairs compared.
#[repr(C)]
#[derive(Clone, Copy)]
pub struct OrderSame {
    pub refusal: u32,
    pub position: u32,
    pub verdict: u32,
    pub pairs: u32,
}

impl From<Result<Comparison, Refusal>> for OrderSame {
    ghost from_gives = { λ answer fields. fields ≡ same_fields (same_result answer) };

    fn from(answer: Result<Comparison, Refusal>) -> OrderSame {
        match answer {
            Ok(Comparison::Different(pairs)) => OrderSame {
                refusal: 0,
                position: 0,
                verdict: 0,
                pairs,
            },
            Ok(Comparison::Same(pairs)) => OrderSame {
                refusal: 0,
                position: 0,
                verdict: 1,
                pairs,
            },
            Err(r) => OrderSame {
                refusal: r.number(),
                position: r.position(),
                verdict: 0,
                pairs: 0,
            },
        }
    }
}

// Of which recording the remainder is, 1 the first and 2 the second, from which entry on and how many entries.
#[repr(C)]
#[derive(Clone, Copy)]
pub struct OrderRemainder {
    pub recording: u32,
    pub from: usize,
    pub length: usize,
}

impl From<Part> for OrderRemainder {
    ghost from_gives = { λ part fields. fields ≡ remainder_fields (part_of part) };

    fn from(part: Part) -> OrderRemainder {
        OrderRemainder {
            recording: match part.recording {
                Recording::First => 1,
                Recording::Second => 2,
            },
            from: part.from,
            length: part.length,
        }
    }
}
