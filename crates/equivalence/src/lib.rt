// The same verdict: whether two schedules are one run, by the names of their steps and what each step touches.
#![tactic(auto)]

ghost use Rattle.std.specs.Prelude.{◌≡◌, ◌<◌, ◌≤◌, length, take};
ghost use Rattle.std.specs.List.{list_any};
ghost use Rattle.table.specs.Promise.{WellFormed};
ghost use Rattle.model.specs.Pair.{depends};
ghost use Rattle.names.specs.Names.{names_in};
ghost use Rattle.equivalence.specs.Compared.{Compared};
ghost use Rattle.equivalence.specs.Judged.{Judges};
ghost use Rattle.equivalence.specs.Parts.{Indexed, absent, Placed, place_in, crosses, search_of, FirstOf, Found};

use answers::Comparison;
use footprint::Latest;

// Whether the second list of m step names is the first's trace in another order: it has the first's names, and runs no dependent pair in
// the opposite order. All names are looked up before any pair is compared.
pub fn same(table: &[u8], first: &[u8; 256], second: &[u8; 256], m: usize) -> Comparison
    requires { Compared table.now first.now second.now m }
    ensures { Judges (depends table.now) (names_in m first.now) (names_in m second.now) result }
{
    let index = indexed(second, m);
    if lacks(&index, &first[..m]) {
        return Comparison::Different(0);
    }
    let steps = Steps {
        table,
        first,
        m,
        index: &index,
    };
    steps.search()
}

// For each name its place among the first m of the second list.
fn indexed(second: &[u8; 256], m: usize) -> [Option<u8>; 256]
    requires { m ≤ 256 }
    ensures { Indexed second.now m result }
{
    let mut index = [None; 256];
    for (i, name) in second[..m].iter().enumerate() {
        index[usize::from(*name)] = Some(i as u8);
    }
    index
}

// Whether some name has no place.
fn lacks(index: &[Option<u8>; 256], names: &[u8]) -> bool
    ensures { result ≡ list_any (absent index.now) names.now }
{
    names.iter().any(|name| index[usize::from(*name)].is_none())
}

// The first list's m steps, each with its place in the second.
#[derive(Clone, Copy)]
struct Steps<'a> {
    table: &'a [u8],
    first: &'a [u8; 256],
    m: usize,
    index: &'a [Option<u8>; 256],
    ghost placed: { Placed table.now first.now index.now m },
}

impl Steps<'_> {
    // The search through the pairs of steps: by rising later step, then rising earlier step, up to the first two that are dependent and have places
    // in the opposite order. Pairs are counted as if each was compared. Step by step only the latest places that the step must not come before are
    // looked at, and where one is later than its own, the earliest step that it crosses is looked for.
    fn search(&self) -> Comparison
        requires { WellFormed self.now.table.now }
        ensures { Found (search_of self.now.table.now self.now.first.now (place_in self.now.index.now self.now.first.now) self.now.m) result }
    {
        let mut latest = Latest::new();
        let mut pairs = 0;
        for j in 0..self.m {
            let name = usize::from(self.first[j]);
            let place = self.place(j);
            let met = latest.pass(self.table, name / 32, name % 32, place);
            if place < met {
                let i = self.earliest(j).unwrap();
                return Comparison::Different((pairs + i + 1) as u32);
            }
            pairs += j;
        }
        Comparison::Same(pairs as u32)
    }

    // The earliest step that step j crosses.
    fn earliest(&self, j: usize) -> Option<usize>
        requires { WellFormed self.now.table.now × (j < self.now.m) }
        ensures { FirstOf (λ i. crosses self.now.table.now self.now.first.now (place_in self.now.index.now self.now.first.now) i j) j result }
    {
        for i in 0..j {
            if self.cross(i, j) {
                return Some(i);
            }
        }
        None
    }

    // Whether the steps i and j are dependent and have places in the opposite order.
    fn cross(&self, i: usize, j: usize) -> bool
        requires { WellFormed self.now.table.now × (i < j) × (j < self.now.m) }
        ensures { result ≡ crosses self.now.table.now self.now.first.now (place_in self.now.index.now self.now.first.now) i j }
    {
        if self.place(j) < self.place(i) {
            let x = usize::from(self.first[i]);
            let y = usize::from(self.first[j]);
            return dependence::dependent(self.table, x / 32, x % 32, y / 32, y % 32);
        }
        false
    }

    // The place of step i.
    fn place(&self, i: usize) -> u16
        requires { i < self.now.m }
        ensures { result ≡ place_in self.now.index.now self.now.first.now i }
    {
        u16::from(self.index[usize::from(self.first[i])].unwrap())
    }
}
