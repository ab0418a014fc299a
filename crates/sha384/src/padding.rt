// The end of a padded message (FIPS 180-4, section 5.1.2).
ghost use Rattle.std.specs.Prelude.{◌≡◌, ◌+◌, ◌/◌, ◌%◌, ◌^◌, ◌≤◌, ◌<◌, ◌++◌, length};
ghost use Rattle.std.proofs.lemmas.List.Edits.{sets};
ghost use Rattle.sha_block.specs.Blocks.{hashed, hash_words, hash_value};
ghost use Rattle.sha384.specs.Sha384.{bytes_of, padding};

use sha_block::blocks::absorb;

// Writes the eight bytes of a word, the highest first.
fn put_word(out: &mut [u8], at: usize, x: u64)
    requires { at + 8 ≤ length out.old }
    ensures { out.new ≡ sets out.old at (bytes_of 8 x) }
{
    out[at..at + 8].copy_from_slice(&x.to_be_bytes());
}

// Runs the one or two blocks that end the padded message over the lent hash value: `last` is what
// follows the whole blocks of a message of `total` bytes. One buffer serves for both.
pub(crate) fn conclude(k: &[u64; 80], h: &mut [u64; 8], last: &[u8], total: u64)
    requires { (length last.now ≡ total % 128) × (total < 2 ^ 61) }
    ensures { h.new ≡ hash_words (hashed k.now (hash_value h.old) (last.now ++ padding total) (length (last.now ++ padding total) / 128)) }
{
    let n = last.len();
    let bits = total * 8;
    let mut block = [0u8; 128];
    block[..n].copy_from_slice(last);
    block[n] = 128;
    if n < 112 {
        put_word(&mut block, 120, bits);
        absorb(k, h, &block);
    } else {
        absorb(k, h, &block);
        block = [0u8; 128];
        put_word(&mut block, 120, bits);
        absorb(k, h, &block);
    }
}
