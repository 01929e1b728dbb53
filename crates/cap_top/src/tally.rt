/// Bytes and lines, counted as they come. A line begins at the first byte, and at each byte after a line feed.
#[derive(Clone, Copy)]
pub struct Tally {
    pub bytes: usize,
    pub lines: u64,
    /// A byte that comes now begins a line.
    pub at_start: bool,
}

impl Tally {
    ghost use Rattle.std.specs.Prelude.{◌≡◌, ◌<◌, ◌≤◌, ◌+◌, ◌^◌, length, fold};
    ghost use Rattle.cap_top.specs.Tally.{nothing, with_byte};

    /// Nothing has come.
    pub fn nothing() -> Tally
        ensures { result ≡ nothing }
    {
        Tally {
            bytes: 0,
            lines: 0,
            at_start: true,
        }
    }

    /// These bytes have come too.
    pub fn with(self, piece: &[u8]) -> Tally
        requires bytes { self.bytes + length piece.now < 2 ^ 64 }
        requires lines { self.lines ≤ self.bytes }
        ensures { result ≡ fold with_byte self piece.now }
    {
        let mut tally = self;
        for byte in piece {
            if tally.at_start {
                tally.lines += 1;
            }
            tally.bytes += 1;
            tally.at_start = *byte == b'\n';
        }
        tally
    }
}
