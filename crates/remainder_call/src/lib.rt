// The remainder of the longer of two recordings, as a part of the caller's own bytes.
#![tactic(auto)]

ghost use Rattle.std.specs.Prelude.{◌≡◌};
ghost use Rattle.model.specs.Recordings.{remainder_of, slice_of, remainder_in};
ghost use Rattle.answers.specs.Answers.{part_of};

use answers::{Part, Recording};

// What lies after the shorter's length, by the two lengths alone; with equal lengths the empty end of the first.
pub fn part(first: usize, second: usize) -> Part
    ensures { part_of result ≡ remainder_of first second }
{
    if first < second {
        Part {
            recording: Recording::Second,
            from: first,
            length: second - first,
        }
    } else {
        Part {
            recording: Recording::First,
            from: second,
            length: first - second,
        }
    }
}

// Those bytes, where they stand.
pub fn remainder<'a>(first: &'a [u8], second: &'a [u8]) -> &'a [u8]
    ensures { slice_of result ≡ remainder_in (slice_of first.entry) (slice_of second.entry) }
{
    let part = part(first.len(), second.len());
    let from = part.from;
    let recording = part.recording;
    match recording {
        Recording::First => &first[from..],
        Recording::Second => &second[from..],
    }
}
