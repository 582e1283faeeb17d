// A listing that was laid out, and its text.
ghost use Rattle.std.specs.Prelude.{◌≡◌, ◌≤◌, take};

// A listing: the first `length` of the bytes. No listing is longer: 256 steps take at most 5 bytes each, the ending at most 13. It lies in an array, for
// nothing here is allocated.
#[derive(Clone, Copy)]
pub struct Listing {
    pub bytes: [u8; 1293],
    pub length: usize,
    ghost within: { length ≤ 1293 },
}

impl Listing {
    // The text.
    pub fn text(&self) -> &[u8]
        ensures { result.now ≡ take self.now.length self.now.bytes }
    {
        &self.bytes[..self.length]
    }
}
