// Answers: a refusal's number, or a 0 byte and what an accepted command tells.
// The bytes and the place in them stay two parameters, here and in each command: of a struct that holds lent bytes every
// function would have to say as well that they are still the same lent ones.
ghost use Rattle.std.specs.Prelude.{[], ◌∷◌, ℕ, ◌+◌, ◌<◌, ◌≤◌, length};
ghost use Rattle.model.specs.Store.{bytes_of};
ghost use Rattle.model.specs.Run.{refuses};
ghost use Rattle.memory.specs.Arranged.{Arranged};
ghost use Rattle.command.specs.Acted.{Written, Acted};

// The refusal's number is the answer, and the caller's count of refusals grows, or stays at its largest. No other word changes. A plain number
// is taken as well as a `Refusal`.
pub fn refuse<R: Into<u8>>(words: &mut [u32], out: &mut [u8], at: usize, refusal: R) -> usize
    requires arranged { Arranged words.old }
    requires at_in_bounds { at < length out.old }
    ensures { (n : ℕ) × R.converts refusal n × Acted words.old words.new out.old out.new at result (refuses n) }
{
    control::refusals::count_refusal(words);
    out[at] = refusal.into();
    1
}

// Accepted, with nothing to tell.
pub fn ack(out: &mut [u8], at: usize) -> usize
    requires { at < length out.old }
    ensures { Written out.old out.new at result (0 ∷ []) }
{
    out[at] = 0;
    1
}

// Accepted, with a byte to tell.
pub fn ack_byte(out: &mut [u8], at: usize, byte: u8) -> usize
    requires { at + 1 < length out.old }
    ensures { Written out.old out.new at result (0 ∷ byte ∷ []) }
{
    out[at] = 0;
    out[at + 1] = byte;
    2
}

// Accepted, with a count of two bytes to tell.
pub fn ack_count(out: &mut [u8], at: usize, count: u32) -> usize
    requires { at + 3 ≤ length out.old }
    ensures { Written out.old out.new at result (0 ∷ bytes_of 2 count) }
{
    out[at] = 0;
    codec::put::<2>(out, at + 1, count);
    3
}

// Accepted, with a number of four bytes to tell.
pub fn ack_number(out: &mut [u8], at: usize, number: u32) -> usize
    requires { at + 5 ≤ length out.old }
    ensures { Written out.old out.new at result (0 ∷ bytes_of 4 number) }
{
    out[at] = 0;
    codec::put::<4>(out, at + 1, number);
    5
}
