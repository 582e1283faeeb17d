// Numbers of two and four bytes, the lowest byte first.
ghost use Rattle.std.specs.Prelude.{◌≡◌, ◌+◌, ◌<◌, ◌≤◌, length};
ghost use Rattle.table.specs.Format.{word_at, long_at};

// 16 bits.
pub fn word(t: &[u8], i: usize) -> usize
    requires { i + 1 < length t.now }
    ensures { (result ≡ word_at t.now i) × (result < 65536) }
{
    usize::from(u16::from_le_bytes([t[i], t[i + 1]]))
}

// 32 bits.
pub fn long(t: &[u8], i: usize) -> u32
    requires { i + 4 ≤ length t.now }
    ensures { result ≡ long_at t.now i }
{
    u32::from_le_bytes([t[i], t[i + 1], t[i + 2], t[i + 3]])
}
