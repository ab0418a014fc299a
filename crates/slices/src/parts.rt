// Parts of a slice of any elements, as arrays.
ghost use Rattle.std.specs.Prelude.{◌≡◌, ◌-◌, ◌++◌, length, take, drop, replicate};

// The N elements of a slice from an index on; past its end each is `rest`.
pub fn part_of<T: Copy, const N: usize>(s: &[T], at: usize, rest: T) -> [T; N]
    ensures { result ≡ take N (drop at s.now) ++ replicate (N - length (drop at s.now)) rest }
{
    let from = s.get(at..).unwrap_or(&[]);
    if let Some(all) = from.first_chunk() {
        return *all;
    }
    let mut out = [rest; N];
    out[..from.len()].copy_from_slice(from);
    out
}
