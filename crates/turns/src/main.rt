// The listing program: reads `site.tab` and `order.sch` in the current folder and prints the listing of their run. An absent file reads as empty. Of a
// file that is there and cannot be read it says why, on standard error, and prints no listing.
#![tactic(auto)]

ghost use Rattle.std.specs.Prelude.{◌≡◌, List, ℕ, ◌≤◌, length, take, IfSome, IfOk};
ghost use Rattle.model.specs.Listing.{listing_of};

use std::fs::File;
use std::io;
use std::io::{ErrorKind, Read, Write};

// No more of a file is read than decides its listing.
fn main(rt: HostRuntime) {
    let mut table = [0u8; 2085];
    let mut schedule = [0u8; 257];
    let site = fetch(&rt, "site.tab", &mut table);
    let order = fetch(&rt, "order.sch", &mut schedule);
    if let (Some(n), Some(m)) = (site, order) {
        print(&rt, &table[..n], &schedule[..m]);
    }
}

fn print(rt: &HostRuntime, table: &[u8], schedule: &[u8]) {
    let laid = listing::lay(table, schedule);
    emit(rt, laid.text(), table, schedule);
}

// The only bytes that go to standard output: the listing of the bytes that were read, and of any two files that begin with them, cut where the
// buffers end.
fn emit(rt: &HostRuntime, text: &[u8], table: &[u8], schedule: &[u8])
    requires text_value { text.now ≡ listing_of table.now schedule.now }
    requires by_index { (file order : List ℕ) → take 2085 file ≡ table.now → take 257 order ≡ schedule.now → text.now ≡ listing_of file order }
{
    let mut out = rt.stdout();
    if let Err(error) = out.write_all(text) {
        fail(rt, "standard output", &error);
    }
}

// How many bytes of a file came, if none failed to: a failure is said on standard error.
fn fetch(rt: &HostRuntime, path: &str, buf: &mut [u8]) -> Option<usize>
    ensures { IfSome result (λ n. n ≤ length buf.new) }
{
    match read(rt, path, buf) {
        Ok(count) => Some(count),
        Err(error) => {
            fail(rt, path, &error);
            None
        }
    }
}

// The beginning of a file, as much as the buffer holds.
fn read(rt: &HostRuntime, path: &str, buf: &mut [u8]) -> io::Result<usize>
    ensures { IfOk result (λ n. n ≤ length buf.new) }
{
    match File::open(rt, path) {
        Ok(mut file) => fill(&mut file, buf),
        Err(error) => unopened(error),
    }
}

// An absent file reads as empty.
fn unopened(error: io::Error) -> io::Result<usize>
    ensures { IfOk result (λ n. n ≡ 0) }
{
    match error.kind() {
        ErrorKind::NotFound => Ok(0),
        _ => Err(error),
    }
}

// Reads until the buffer is full, the file ends or a read fails.
fn fill(file: &mut File, buf: &mut [u8]) -> io::Result<usize>
    ensures { IfOk result (λ n. n ≤ length buf.new) }
{
    let mut at = 0;
    while at < buf.len() {
        let count = file.read(&mut buf[at..])?;
        if count == 0 {
            break;
        }
        at += count;
    }
    Ok(at)
}

// Says on standard error why something could not be read or written, in the system's words; where that can't be said, nothing.
fn fail(rt: &HostRuntime, what: &str, error: &io::Error) {
    let _ = say(rt, what, error);
}

fn say(rt: &HostRuntime, what: &str, error: &io::Error) -> io::Result<()> {
    let words = format!(in rt.alloc(); "{error}")?;
    match words.as_str().split_once(" (os error ") {
        Some((text, _)) => eprintln!(rt; "{what}: {text}"),
        None => eprintln!(rt; "{what}: {error}"),
    }
}
