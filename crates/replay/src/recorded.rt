// The file of recorded answers: its numbers, and how far it is read.
ghost use Rattle.std.specs.Prelude.{◌≡◌, false, ◌+◌, ◌≤◌, ◌<◌, length};
ghost use Rattle.replay.specs.Recorded.{short};

// How far the file is read, and whether what was read agrees.
#[derive(Drop)]
pub struct Step {
    pub at: usize,
    pub agrees: bool,
}

// The file ends too soon.
pub fn cut(file: &[u8]) -> Step
    ensures { result ≡ record { at = length file.now; agrees = false } }
{
    Step {
        at: file.len(),
        agrees: false,
    }
}

// Two bytes, the lowest first.
pub fn short_at(file: &[u8], at: usize) -> usize
    requires { at + 2 ≤ length file.now }
    ensures { (result ≡ short file.now at) × (result < 65536) }
{
    usize::from(file[at]) + 256 * usize::from(file[at + 1])
}
