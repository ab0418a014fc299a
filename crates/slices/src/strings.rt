// Byte strings of a fixed length: from any index of a slice, past whose end are zeros, and two of them
// joined.
ghost use Rattle.std.specs.Prelude.{◌≡◌, ◌++◌, ◌+◌, length};
ghost use Rattle.layout.specs.Words.{part};

use crate::parts::part_of;

// The N bytes of a slice from an index on.
pub fn bytes_of<const N: usize>(s: &[u8], at: usize) -> [u8; N]
    ensures { result ≡ part N s.now at }
{
    part_of(s, at, 0)
}

// Two byte strings, one after the other, and zeros behind them.
pub fn joined<const N: usize>(first: &[u8], second: &[u8]) -> [u8; N]
    ensures bytes { result ≡ part N (first.now ++ second.now) 0 }
    ensures whole { length first.now + length second.now ≡ N → result ≡ first.now ++ second.now }
{
    let mut out = [0u8; N];
    let n = first.len().min(N);
    let m = second.len().min(N - n);
    let all = &mut out[..];
    all[..n].copy_from_slice(&first[..n]);
    all[n..n + m].copy_from_slice(&second[..m]);
    out
}
