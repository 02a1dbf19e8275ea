// Bytes from a reader, in as many reads as they take. Unlike `Read::read_exact`, the end of the input and a failed read are told apart, and an end is no error.
#![tactic(auto)]

ghost use Rattle.std.specs.Prelude.{◌≡◌, ◌≤◌, ◌<◌, ◌-◌, length, take, drop, IfOk, OnErr};
ghost use Rattle.std.specs.Io.{ReadsAtMost};
ghost use Rattle.std.specs.Io.KnownBytes.{Consumes, Keeps, IsAtEnd};
ghost use Rattle.input.specs.Input.{Came, Taken, Lost};

use std::io;
use std::io::Read;

// One read, to the buffer from `at` on: 0 bytes at the end of the input.
fn read_at<R: Read>(reader: &mut R, buffer: &mut [u8], at: usize) -> io::Result<usize>
    requires { at ≤ length buffer.old }
    ensures came { Came result (length buffer.new - at) }
    ensures front { take at buffer.new ≡ take at buffer.old }
    ensures ok { IfOk result (λ n. Consumes (R.remaining reader.old) (R.remaining reader.new) (take n (drop at buffer.new))) }
    ensures end { IfOk result (λ n. n ≡ 0 → at < length buffer.old → IsAtEnd (R.remaining reader.new)) }
    ensures err { OnErr result (Keeps (R.remaining reader.old) (R.remaining reader.new)) }
{
    reader.read(&mut buffer[at..])
}

// Reads until the buffer is full, the input ends or a read fails. A read that a signal interrupts counts as failed: no program here handles one.
// What came stands at the front of the buffer; fewer bytes than it has room for only at the end; past a full buffer nothing is read.
pub fn read_up_to<R: Read>(reader: &mut R, buffer: &mut [u8]) -> io::Result<usize>
    ensures came { Came result (length buffer.new) }
    ensures in_bounds { ReadsAtMost result buffer.new }
    ensures taken { IfOk result (λ n. Taken (R.remaining reader.old) (R.remaining reader.new) buffer.new n) }
    ensures err { OnErr result (Lost (R.remaining reader.old) (R.remaining reader.new) buffer.new) }
{
    let mut n = 0;
    // a `while`: how far a read came is known only after it
    while n < buffer.len() {
        let more = read_at(reader, buffer, n)?;
        if more == 0 {
            return Ok(n);
        }
        n += more;
    }
    Ok(n)
}
