// Writing into lent parts, one after another: the smallest writers, what a writer promises, and its laws. Each writer puts its bytes at the front of the
// part that it is lent, and answers with their number.
#![tactic(auto)]

ghost use Rattle.std.specs.Prelude.{◌≡◌, ℕ, ◌/◌, ◌%◌, List, ◌∷◌, [], ◌<◌, ◌≤◌, length};
ghost use Rattle.model.specs.Report.{word, long, parts};
ghost use Rattle.writing.specs.Written.{Wrote};

// These bytes.
pub fn put(bytes: &[u8], buf: &mut [u8]) -> usize
    requires { length bytes.now ≤ length buf.old }
    ensures { Wrote buf.old bytes.now buf.new result }
{
    let size = bytes.len();
    buf[..size].copy_from_slice(bytes);
    size
}

// 16 bits, the lowest byte first.
pub fn short(x: u16, buf: &mut [u8]) -> usize
    requires { 2 ≤ length buf.old }
    ensures { Wrote buf.old (word x) buf.new result }
{
    put(&x.to_le_bytes(), buf)
}

// 32 bits, the lowest byte first.
pub fn number(value: u32, buf: &mut [u8]) -> usize
    requires { 4 ≤ length buf.old }
    ensures { Wrote buf.old (long value) buf.new result }
{
    put(&value.to_le_bytes(), buf)
}

// The actor and the action of a step's name that stands in one byte.
pub fn name(x: u8) -> [u8; 2]
    ensures { result ≡ x / 32 ∷ x % 32 ∷ [] }
{
    [x / 32, x % 32]
}

// The parts of the numbers below n, one after another. Part k has the bytes `bytes k`.
pub fn each<F: Fn(usize, &mut [u8]) -> usize>(n: usize, part: F, buf: &mut [u8]) -> usize
    ghost bytes: { ℕ → List ℕ }
    requires room { length (parts bytes n 0) ≤ length buf.old }
    requires callable { (k : ℕ) (b : _) → k < n → length (bytes k) ≤ length b.now → F.pre part k b }
    requires wrote { (k : ℕ) (b : _) (r : ℕ) (after : _) → k < n → F.post part k b r after → Wrote b.now (bytes k) after.now r }
    ensures { Wrote buf.old (parts bytes n 0) buf.new result }
{
    let mut at = 0;
    for k in 0..n {
        at += part(k, &mut buf[at..]);
    }
    at
}
