// The exchange route between two lists of the same step names, as positions. Each step of the second list in turn is pulled to its place through
// the steps that stand before it in what is left of the first.
#![tactic(auto)]

ghost use Rattle.std.specs.Prelude.{◌≡◌, ◌++◌, ◌+◌, ◌≤◌, true, length, drop, map};
ghost use Rattle.trace.specs.Order.{mem};
ghost use Rattle.trace.specs.Route.{pull};
ghost use Rattle.names.specs.InByte.{name_of};
ghost use Rattle.writing.specs.Written.{Wrote};
ghost use Rattle.routing.specs.Routable.{Routable};
ghost use Rattle.routing.specs.Parts.{route_in, Brought};

// Writes the positions of the exchanges that turn the first list of m step names into the second, each step pulled to its place in turn, and
// answers their number.
pub fn route(first: &[u8; 256], second: &[u8; 256], m: usize, positions: &mut [u16]) -> usize
    requires { Routable first.now second.now m positions.old }
    ensures count { result ≡ length (route_in first.now second.now m) }
    ensures lent { positions.new ≡ route_in first.now second.now m
        ++ drop (length (route_in first.now second.now m)) positions.old }
{
    let mut rest = *first;
    let mut n = 0;
    for (b, y) in second[..m].iter().enumerate() {
        let way = bring(&mut rest[b..], *y);
        n += write(b, way, &mut positions[n..]);
    }
    n
}

// Takes the step y out of what is left: the steps before it move back by one, over it. How many they are.
fn bring(left: &mut [u8], y: u8) -> usize
    requires { mem (name_of y) (map name_of left.old) ≡ true }
    ensures { Brought left.old left.new y result }
{
    let way = left.iter().position(|x| *x == y).unwrap();
    let mut carry = y;
    for x in left[..way + 1].iter_mut() {
        let passed = *x;
        *x = carry;
        carry = passed;
    }
    way
}

// The positions b + way - 1 down to b.
fn write(b: usize, way: usize, positions: &mut [u16]) -> usize
    requires { (b + way ≤ 256) × (way ≤ length positions.old) }
    ensures { Wrote positions.old (pull b way) positions.new result }
{
    for (k, position) in positions[..way].iter_mut().enumerate() {
        *position = (b + way - 1 - k) as u16;
    }
    way
}
