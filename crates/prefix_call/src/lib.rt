// The verdict on two recordings: the longer is held to the length of the shorter, and the rest of it is not looked at.
#![tactic(auto)]

ghost use Rattle.std.specs.Prelude.{◌≡◌};
ghost use Rattle.model.specs.Recordings.{prefix_comparison_of};
ghost use Rattle.answers.specs.Answers.{same_result};

use answers::{Comparison, Refusal};

// Whether two recordings are the same as far as both reach, and how many pairs of those steps were compared.
pub fn prefix(table: &[u8], first: &[u8], second: &[u8]) -> Result<Comparison, Refusal>
    ensures { same_result result ≡ prefix_comparison_of table.now first.now second.now }
{
    let both = first.len().min(second.len());
    same_call::same(table, &first[..both], &second[..both])
}
