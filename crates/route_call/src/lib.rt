// The route call: refused as the same call is, then 19 and 18, then a route.
#![tactic(auto)]

ghost use Rattle.std.specs.Prelude.{◌≡◌, ◌≤◌};
ghost use Rattle.model.specs.Route.{most_exchanges, RightRoute};
ghost use Rattle.answers.specs.Answers.{length_result};

use answers::{Comparison, Refusal};

// Writes a route from the first schedule to the second into the lent entries: a chain of exchanges, each by its position.
pub fn route(table: &[u8], first: &[u8], second: &[u8], route: &mut [u16]) -> Result<u32, Refusal>
    ensures { RightRoute table.now first.now second.now route.old route.new (length_result result) }
{
    let mut names = [0u8; 256];
    let mut others = [0u8; 256];
    let comparison = comparison::compared(table, first, second, &mut names, &mut others)?;
    let Comparison::Same(_) = comparison else {
        return Err(Refusal::Different);
    };
    let m = first.len();
    if route.len() < most_exchanges(m) {
        return Err(Refusal::RouteRoom);
    }
    let n = routing::route(&names, &others, m, route);
    Ok(n as u32)
}

// The most exchanges that a route between schedules of length m has.
fn most_exchanges(m: usize) -> usize
    requires { m ≤ 256 }
    ensures { result ≡ most_exchanges m }
{
    m * m.saturating_sub(1) / 2
}
