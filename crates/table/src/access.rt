// The counts that stand in a table, read in place; `within` reads its actions. Each function answers for every file and every number: a byte past
// the end counts as 0.
ghost use Rattle.std.specs.Prelude.{◌≡◌, ◌<◌};
ghost use Rattle.table.specs.Format.{byte_at, actors_of, mailboxes_of, mutexes_of, count_of};

// The number of actors.
pub fn actors(table: &[u8]) -> usize
    ensures { result ≡ actors_of table.now }
{
    byte(table, 1)
}

// The number of mailboxes.
pub fn mailboxes(table: &[u8]) -> usize
    ensures { result ≡ mailboxes_of table.now }
{
    byte(table, 2)
}

// The number of mutexes.
pub fn mutexes(table: &[u8]) -> usize
    ensures { result ≡ mutexes_of table.now }
{
    byte(table, 3)
}

// The number of an actor's actions, from its directory entry.
pub fn actions(table: &[u8], actor: usize) -> usize
    ensures { result ≡ count_of table.now actor }
{
    if table.len() / 4 < actor {
        return 0;
    }
    byte(table, 6 + 4 * actor) + 256 * byte(table, 7 + 4 * actor)
}

// A byte, 0 past the end.
fn byte(t: &[u8], i: usize) -> usize
    ensures { (result ≡ byte_at t.now i) × (result < 256) }
{
    t.get(i).map_or(0, |b| usize::from(*b))
}
