// The hold of a script, from line to line (Rule 5.22).

ghost use Rattle.std.specs.Prelude.{◌≡◌, ◌≤◌, ◌<◌, length};

// The hold that is kept, another of zeros, and how many bytes the events are lent, as it is written.
// Kept: no heap, so the other has as many bytes as are ever lent.
#[derive(Clone, Copy)]
pub struct Hold {
    kept: [u8; 34944],
    other: [u8; 65536],
    lends: u32,
}

impl Hold {
    // At the start the hold that is kept is lent.
    pub fn new() -> Self {
        Hold {
            kept: [0; 34944],
            other: [0; 65536],
            lends: 34944,
        }
    }

    pub fn lend(&mut self, n: u32) {
        self.lends = n;
    }

    // How many bytes are lent: at most 65,536.
    pub fn lends(&self) -> usize
        ensures { result ≤ 65536 }
    {
        self.lends.min(65536) as usize
    }

    // The bytes that are lent: the hold that is kept where it has as many, else as many zeros.
    pub fn lent(&mut self) -> &mut [u8] {
        let size = self.lends();
        if size == self.kept.len() {
            return &mut self.kept;
        }
        let zeros = &mut self.other[..size];
        zeros.fill(0);
        zeros
    }

    // Every byte of the hold that is kept becomes x.
    pub fn paint(&mut self, x: u8) {
        self.kept.fill(x);
    }

    // The bytes of place k of AS a in the hold that is kept.
    pub fn place(&self, a: usize, k: usize) -> &[u8]
        requires { (a < 16) × (k < 8) }
        ensures { length result.now ≡ 273 }
    {
        let from = a * 2184 + k * 273;
        &self.kept[from..from + 273]
    }
}
