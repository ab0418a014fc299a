// Little-endian numbers in a byte slice, and 48 bytes as twelve words, at any index of a slice of any
// length: a byte past its end is 0.
ghost use Rattle.std.specs.Prelude.{◌≡◌, ◌+◌, get_or};
ghost use Rattle.layout.specs.Sizes.{register_words};
ghost use Rattle.layout.specs.Words.{le16, le32, le64, words_at};

use crate::strings::bytes_of;
use layout::REGISTER_WORDS;

// The byte k places after an index.
// (kept: a public function with a contract and edits of its own, though what calls this crate reads whole numbers)
pub fn byte(s: &[u8], at: usize, k: usize) -> u8
    ensures { result ≡ get_or s.now (at + k) 0 }
{
    at.checked_add(k)
        .and_then(|i| s.get(i).copied())
        .unwrap_or(0)
}

pub fn read16(s: &[u8], at: usize) -> u32
    ensures { result ≡ le16 s.now at }
{
    u32::from(u16::from_le_bytes(bytes_of(s, at)))
}

pub fn read32(s: &[u8], at: usize) -> u32
    ensures { result ≡ le32 s.now at }
{
    u32::from_le_bytes(bytes_of(s, at))
}

pub fn read64(s: &[u8], at: usize) -> u64
    ensures { result ≡ le64 s.now at }
{
    u64::from_le_bytes(bytes_of(s, at))
}

// The twelve words of the 48 bytes from an index on.
pub fn pack(s: &[u8], at: usize) -> [u32; REGISTER_WORDS]
    ensures { result ≡ words_at register_words s.now at }
{
    let bytes: [u8; 48] = bytes_of(s, at);
    std::array::from_fn(|k| read32(&bytes, 4 * k))
}
