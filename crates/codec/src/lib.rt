// Numbers as bytes, the lowest first.
#![tactic(auto)]

ghost use Rattle.std.specs.Prelude.{◌≡◌, ◌+◌, ◌≤◌, length, take, drop};
ghost use Rattle.std.proofs.lemmas.List.Edits.{sets};
ghost use Rattle.model.specs.Store.{bytes_of, number};

// The N low bytes of v, at `at`.
pub fn put<const N: usize>(out: &mut [u8], at: usize, v: u32)
    requires few { N ≤ 4 }
    requires room { at + N ≤ length out.old }
    ensures { out.new ≡ sets out.old at (bytes_of N v) }
{
    let bytes = v.to_le_bytes();
    out[at..at + N].copy_from_slice(&bytes[..N]);
}

// The number in the N bytes at `at`.
pub fn get<const N: usize>(tape: &[u8], at: usize) -> u32
    requires few { N ≤ 4 }
    requires room { at + N ≤ length tape.now }
    ensures { result ≡ number (take N (drop at tape.now)) }
{
    let mut bytes = [0; 4];
    bytes[..N].copy_from_slice(&tape[at..at + N]);
    u32::from_le_bytes(bytes)
}
