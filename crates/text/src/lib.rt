// Text at the front of a lent part: bytes, numbers in decimal, in columns, and both. Each writer answers with the length of what it wrote.
#![tactic(auto)]

ghost use Rattle.std.specs.Prelude.{◌≡◌, ◌∷◌, ◌++◌, ◌<◌, ◌≤◌, length, replicate};
ghost use Rattle.model.specs.Text.{decimal as decimal_of, digit as digit_of, right as right_of, space, line};
ghost use Rattle.writing.specs.Written.{Wrote};

// A number in decimal.
pub fn decimal(x: u32, buf: &mut [u8]) -> usize
    requires { length (decimal_of x) ≤ length buf.old }
    ensures { Wrote buf.old (decimal_of x) buf.new result }
{
    right(0, x, buf)
}

// A number in decimal, at the right of so many columns.
pub fn right(columns: usize, x: u32, buf: &mut [u8]) -> usize
    requires { length (right_of columns (decimal_of x)) ≤ length buf.old }
    ensures { Wrote buf.old (right_of columns (decimal_of x)) buf.new result }
{
    let front = columns.saturating_sub(1);
    if x < 10 {
        let at = spaces(front, buf);
        buf[at] = digit(x);
        return at + 1;
    }
    let at = right(front, x / 10, buf);
    buf[at] = digit(x % 10);
    at + 1
}

// A space, and a number at the right of ten columns: every number of 32 bits fits.
// A twin of `column(b" ", 10, x, buf)`, kept for speed: a page has up to 64 cells, and took 1.33 times the reference by recursion, 1.04 by this loop.
pub fn ten_columns(x: u32, buf: &mut [u8]) -> usize
    requires { length (space ∷ right_of 10 (decimal_of x)) ≤ length buf.old }
    ensures { Wrote buf.old (space ∷ right_of 10 (decimal_of x)) buf.new result }
{
    let end = spaces(11, buf);
    let mut rest = x;
    for i in (1..11).rev() {
        buf[i] = digit(rest % 10);
        rest /= 10;
        if rest == 0 {
            break;
        }
    }
    end
}

fn spaces(count: usize, buf: &mut [u8]) -> usize
    requires { count ≤ length buf.old }
    ensures { Wrote buf.old (replicate count space) buf.new result }
{
    buf[..count].fill(b' ');
    count
}

fn digit(x: u32) -> u8
    requires { x < 10 }
    ensures { result ≡ digit_of x }
{
    b'0' + x as u8
}

// A label, and a number after it, at the right of so many columns.
pub fn column(label: &[u8], columns: usize, x: u32, buf: &mut [u8]) -> usize
    requires { length (label.now ++ right_of columns (decimal_of x)) ≤ length buf.old }
    ensures { Wrote buf.old (label.now ++ right_of columns (decimal_of x)) buf.new result }
{
    let at = writing::put(label, buf);
    at + right(columns, x, &mut buf[at..])
}

// The same in as many columns as the number needs.
pub fn labelled(label: &[u8], x: u32, buf: &mut [u8]) -> usize
    requires { length (label.now ++ decimal_of x) ≤ length buf.old }
    ensures { Wrote buf.old (label.now ++ decimal_of x) buf.new result }
{
    column(label, 0, x, buf)
}

// The same at a line's end.
pub fn ended(label: &[u8], x: u32, buf: &mut [u8]) -> usize
    requires { length (line (label.now ++ decimal_of x)) ≤ length buf.old }
    ensures { Wrote buf.old (line (label.now ++ decimal_of x)) buf.new result }
{
    let at = labelled(label, x, buf);
    buf[at] = b'\n';
    at + 1
}
