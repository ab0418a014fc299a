// Words of a memory image, at any index of an image of any length, and the bytes that are packed in
// them, the first lowest. A word past the image's end is 0.
#![tactic(auto)]

ghost use Rattle.std.specs.Prelude.{◌≡◌, ◌+◌, get_or};
ghost use Rattle.layout.specs.Sizes.{register_words};
ghost use Rattle.layout.specs.Words.{part, byte_of, bytes4, bytes48};

use layout::REGISTER_WORDS;
use slices::parts::part_of;
use slices::strings::bytes_of;

pub fn word(image: &[u32], at: usize) -> u32
    ensures { result ≡ get_or image.now at 0 }
{
    image.get(at).copied().unwrap_or(0)
}

// The word k places after an index.
pub fn word_after(image: &[u32], at: usize, k: usize) -> u32
    ensures { result ≡ get_or image.now (at + k) 0 }
{
    at.checked_add(k).map_or(0, |i| word(image, i))
}

// Byte j of a word, the lowest first; from byte 4 on 0.
pub fn byte_of(w: u32, j: usize) -> u8
    ensures { result ≡ byte_of w j }
{
    w.to_le_bytes().get(j).copied().unwrap_or(0)
}

// The four bytes of a number.
pub fn four(n: u32) -> [u8; 4]
    ensures { result ≡ bytes4 n }
{
    n.to_le_bytes()
}

// The 48 bytes of twelve words of an image.
pub fn bytes_in(image: &[u32], at: usize) -> [u8; 48]
    ensures { result ≡ bytes48 (part register_words image.now at) }
{
    let words: [u32; REGISTER_WORDS] = part_of(image, at, 0);
    bytes_of(words.map(four).as_flattened(), 0)
}
