// The report's sections of the mailboxes and of the mutexes. Each writer puts its bytes at the front of the part that it is lent, and answers with
// their number.
#![tactic(auto)]

ghost use Rattle.std.specs.Prelude.{◌≡◌, [], ◌∷◌, ◌+◌, ◌-◌, ◌*◌, ◌/◌, ◌%◌, ◌<◌, ◌≤◌, length};
ghost use Rattle.model.specs.Report.{parts, box_bytes, mutex_bytes};
ghost use Rattle.state.specs.State.{queues_of};
ghost use Rattle.state.specs.Rooms.{head_in, tail_in};
ghost use Rattle.writing.specs.Written.{Wrote};
ghost use Rattle.queue_sections.specs.Parts.{name_at, port_bytes, queue_of, boxes_bytes, entry_at, mutexes_bytes};

use state::{Mail, Queues};

// So many step names of the log from a place on.
fn names(mail: &Mail, from: usize, count: usize, buf: &mut [u8]) -> usize
    requires { (from + count ≤ 4096) × (length (parts (name_at mail.now.log from) count 0) ≤ length buf.old) }
    ensures { Wrote buf.old (parts (name_at mail.now.log from) count 0) buf.new result }
{
    writing::each(
        count,
        |i, buf| writing::put(&writing::name(mail.log[from + i]), buf),
        buf,
    )
}

// How many steps are pending at a port.
fn waiting(mail: &Mail, port: usize) -> usize
    requires { port < 16 }
    ensures { result ≡ tail_in mail.now.ends port - head_in mail.now.ends port }
{
    mail.ends[2 * port + 1] - mail.ends[2 * port]
}

// The steps that are pending at a port.
fn port_part(mail: &Mail, port: usize, buf: &mut [u8]) -> usize
    requires { (port < 16) × (length (port_bytes mail.now.log mail.now.ends port) ≤ length buf.old) }
    ensures { Wrote buf.old (port_bytes mail.now.log mail.now.ends port) buf.new result }
{
    names(
        mail,
        256 * port + mail.ends[2 * port],
        waiting(mail, port),
        buf,
    )
}

// A mailbox's queue: its length and its steps.
fn box_part(mail: &Mail, m: usize, buf: &mut [u8]) -> usize
    requires { (m < 8)
        × (length (box_bytes (queue_of mail.now.log mail.now.ends m)) ≤ length buf.old) }
    ensures { Wrote buf.old (box_bytes (queue_of mail.now.log mail.now.ends m)) buf.new result }
{
    let sends = waiting(mail, 2 * m);
    let size = sends + waiting(mail, 2 * m + 1);
    let at = writing::short(size as u16, buf);
    let next = at + port_part(mail, 2 * m, &mut buf[at..]);
    next + port_part(mail, 2 * m + 1, &mut buf[next..])
}

// The mailboxes.
pub fn boxes_part(mail: &Mail, count: usize, buf: &mut [u8]) -> usize
    requires { (count ≤ 8)
        × (length (boxes_bytes mail.now.log mail.now.ends count) ≤ length buf.old) }
    ensures { Wrote buf.old (boxes_bytes mail.now.log mail.now.ends count) buf.new result }
{
    writing::each(count, |m, buf| box_part(mail, m, buf), buf)
}

// So many entries of the queues from a place on: the actor and its depth.
fn entries(queues: &Queues, from: usize, count: usize, buf: &mut [u8]) -> usize
    requires { (from + count ≤ 72) × (length (parts (entry_at queues.now.bytes from) count 0) ≤ length buf.old) }
    ensures { Wrote buf.old (parts (entry_at queues.now.bytes from) count 0) buf.new result }
{
    writing::each(count, |i, buf| entry(queues.bytes[from + i], buf), buf)
}

// An entry, from the byte that holds it.
fn entry(b: u8, buf: &mut [u8]) -> usize
    requires { 2 ≤ length buf.old }
    ensures { Wrote buf.old (b % 8 ∷ (b / 8 + 1) ∷ []) buf.new result }
{
    writing::put(&[b % 8, b / 8 + 1], buf)
}

// A mutex's queue: its length and its entries.
fn mutex_part(queues: &Queues, m: usize, buf: &mut [u8]) -> usize
    requires { (m < 8) × (length (mutex_bytes (queues_of queues.now.bytes m)) ≤ length buf.old) }
    ensures { Wrote buf.old (mutex_bytes (queues_of queues.now.bytes m)) buf.new result }
{
    let from = 9 * m;
    let size = queues.bytes[from];
    let at = writing::put(&[size], buf);
    at + entries(queues, from + 1, usize::from(size), &mut buf[at..])
}

// The mutexes.
pub fn mutexes_part(queues: &Queues, count: usize, buf: &mut [u8]) -> usize
    requires { (count ≤ 8) × (length (mutexes_bytes queues.now.bytes count) ≤ length buf.old) }
    ensures { Wrote buf.old (mutexes_bytes queues.now.bytes count) buf.new result }
{
    writing::each(count, |m, buf| mutex_part(queues, m, buf), buf)
}
