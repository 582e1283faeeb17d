// The same call: the table and both schedules, then the verdict on them.
#![tactic(auto)]

ghost use Rattle.std.specs.Prelude.{◌≡◌};
ghost use Rattle.model.specs.Calls.{comparison_of};
ghost use Rattle.answers.specs.Answers.{same_result};

use answers::{Comparison, Refusal};

// Whether two schedules are the same, and how many pairs of steps were compared.
pub fn same(table: &[u8], first: &[u8], second: &[u8]) -> Result<Comparison, Refusal>
    ensures { same_result result ≡ comparison_of table.now first.now second.now }
{
    let mut names = [0u8; 256];
    let mut others = [0u8; 256];
    comparison::compared(table, first, second, &mut names, &mut others)
}
