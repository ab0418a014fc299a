// The mailbox checksum (document 01, "Mailbox").
#![tactic(auto)]

ghost use Rattle.std.specs.Prelude.{◌≡◌, ◌%◌, ◌^◌};
ghost use Rattle.message.specs.Checksum.{sum_of, checksum_of};

// The sum of the bytes, modulo 2^32.
fn sum_bytes(s: &[u8]) -> u32
    ensures { result ≡ sum_of s.now % 2 ^ 32 }
{
    s.iter()
        .fold(0, |sum: u32, b| sum.wrapping_add(u32::from(*b)))
}

// Zero minus the sum of the code's four bytes and of the bytes after the checksum field. Never
// refuses.
pub fn checksum(code: u32, bytes: &[u8]) -> u32
    ensures { result ≡ checksum_of code bytes.now }
{
    let sum = sum_bytes(&code.to_le_bytes()).wrapping_add(sum_bytes(bytes));
    0u32.wrapping_sub(sum)
}
