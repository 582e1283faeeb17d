// The state report: each section goes into the rest of the lent bytes after the section before it.
#![tactic(auto)]

ghost use Rattle.model.specs.Report.{report};
ghost use Rattle.state.specs.State.{site_of};
ghost use Rattle.writing.specs.Written.{Wrote};
ghost use Rattle.report.specs.Parts.{Reportable};

use state::{Actor, Site};
use table::access;

// Writes the state report into the front of the lent bytes, and answers with its length.
pub fn write(table: &[u8], actors: [Actor; 8], site: &Site, buf: &mut [u8]) -> usize
    requires { Reportable table.now actors site.now buf.old }
    ensures { Wrote buf.old (report table.now (site_of actors site.now)) buf.new result }
{
    let n = access::actors(table);
    let actions = actor_sections::actors_part(actors, n, buf);
    let boxes = actions + actor_sections::actions_part(table, &site.mail, n, &mut buf[actions..]);
    let m = access::mailboxes(table);
    let mutexes = boxes + queue_sections::boxes_part(&site.mail, m, &mut buf[boxes..]);
    let x = access::mutexes(table);
    let entries = mutexes + queue_sections::mutexes_part(&site.queues, x, &mut buf[mutexes..]);
    entries + journal::part(&site.journal, &mut buf[entries..])
}
