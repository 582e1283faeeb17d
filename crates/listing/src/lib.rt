// The listing of a run: its steps, a line each, and its ending; or its refusal.
#![tactic(auto)]

ghost use Rattle.std.specs.Prelude.{◌≡◌, List, ℕ, ◌≤◌, length, take};
ghost use Rattle.model.specs.Listing.{listing_of, table_read, schedule_read};
ghost use Rattle.writing.specs.Written.{Wrote};
ghost use Rattle.listing.specs.Laid.{Laid};

pub mod laid;

pub use laid::Listing;
use state::Site;

// Lays out the listing of a table and a schedule. It is also the listing of any two files of which these are the beginnings, cut at 2,085 and 257
// bytes.
pub fn lay(table: &[u8], schedule: &[u8]) -> Listing
    ensures listing { Laid (listing_of table.now schedule.now) result }
    ensures beginnings { (file order : List ℕ) → take table_read file ≡ table.now → take schedule_read order ≡ schedule.now
        → Laid (listing_of file order) result }
{
    let mut bytes = [0u8; 1293];
    let length = write(table, schedule, &mut bytes);
    Listing { bytes, length }
}

// Writes the listing to the front of the lent bytes, and answers with its length.
fn write(table: &[u8], schedule: &[u8], out: &mut [u8]) -> usize
    requires { 1293 ≤ length out.old }
    ensures wrote { Wrote out.old (listing_of table.now schedule.now) out.new result }
    ensures upper_bound { result ≤ 1293 }
{
    let mut site = Site::fresh();
    let mut names = [0u8; 256];
    match execution::execute(table, schedule, &mut site, &mut names) {
        Ok(actors) => {
            let now = readiness::answer(table, actors, &site);
            lines::run(&names, schedule.len(), now.ending, out)
        }
        Err(refusal) => lines::refused(refusal.number(), refusal.position(), out),
    }
}
