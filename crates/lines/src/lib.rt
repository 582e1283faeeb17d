// The lines of a listing. Each writer puts its lines at the front of the part that it is lent, and answers with their length.
#![tactic(auto)]

ghost use Rattle.std.specs.Prelude.{◌≡◌, ◌++◌, ◌≤◌, length};
ghost use Rattle.model.specs.Report.{parts};
ghost use Rattle.model.specs.Text.{line};
ghost use Rattle.model.specs.Listing.{end_text, refused_text};
ghost use Rattle.answers.specs.Answers.{ending_as};
ghost use Rattle.writing.specs.Written.{Wrote};
ghost use Rattle.lines.specs.FirstSteps.{first_steps, step_line, line_at};

use answers::Ending;

// The only line of a refused run.
pub fn refused(number: u32, position: u32, buf: &mut [u8]) -> usize
    requires { 33 ≤ length buf.old }
    ensures wrote { Wrote buf.old (line (refused_text number position)) buf.new result }
    ensures upper_bound { result ≤ 33 }
{
    let at = text::labelled(b"refused ", number, buf);
    at + text::ended(b" at ", position, &mut buf[at..])
}

// The lines of a run: its steps, by the bytes that hold their names, and its ending.
pub fn run(names: &[u8; 256], count: usize, ending: Ending, buf: &mut [u8]) -> usize
    requires { (count ≤ length names.now) × (count ≤ 256) × (1293 ≤ length buf.old) }
    ensures wrote { Wrote buf.old (first_steps names.now count ++ line (end_text (ending_as ending))) buf.new result }
    ensures upper_bound { result ≤ 1293 }
{
    let at = steps(names, count, buf);
    at + writing::put(last(ending), &mut buf[at..])
}

// The lines of so many steps.
fn steps(names: &[u8; 256], count: usize, buf: &mut [u8]) -> usize
    requires { (count ≤ length names.now) × (length (parts (line_at names.now) count 0) ≤ length buf.old) }
    ensures { Wrote buf.old (parts (line_at names.now) count 0) buf.new result }
{
    writing::each(count, |i, buf| step(names[i], buf), buf)
}

// A step's line.
fn step(name: u8, buf: &mut [u8]) -> usize
    requires { length (step_line name) ≤ length buf.old }
    ensures { Wrote buf.old (step_line name) buf.new result }
{
    let [actor, action] = writing::name(name);
    let at = text::decimal(u32::from(actor), buf);
    at + text::ended(b" ", u32::from(action), &mut buf[at..])
}

// The ending's line.
fn last(ending: Ending) -> &'static [u8]
    ensures { result.now ≡ line (end_text (ending_as ending)) }
{
    match ending {
        Ending::Finished => b"end finished\n",
        Ending::Stuck => b"end stuck\n",
        Ending::Going => b"end going\n",
    }
}
