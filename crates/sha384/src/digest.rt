// The digest entry, "x extended by d", and the digest from a hash value on.
ghost use Rattle.std.specs.Prelude.{◌≡◌, ◌≤◌, ◌++◌, length};
ghost use Rattle.sha_block.specs.Blocks.{hash_value};
ghost use Rattle.sha384.specs.Sha384.{first_six, sha384};
ghost use Rattle.sha384.specs.Errors.{numbered};
ghost use Rattle.sha384.specs.Entries.{longest, digest_of, extended, concluded};

use crate::constants::{K, initial};
use crate::errors::DigestError;
use crate::padding::conclude;
use sha_block::blocks::absorb;
use slices::strings::joined;

// The longest message, in bytes.
pub const LONGEST: usize = 65535;

// A digest entry's answer as a number and 48 bytes: 0 and the digest; or a refusal's number and zeros.
#[derive(Clone, Copy)]
pub struct DigestResult {
    pub number: u32,
    pub bytes: [u8; 48],
}

impl From<Result<[u8; 48], DigestError>> for DigestResult {
    ghost from_gives = { λ r d. d ≡ numbered r };

    fn from(answer: Result<[u8; 48], DigestError>) -> DigestResult {
        match answer {
            Ok(bytes) => DigestResult { number: 0, bytes },
            Err(error) => DigestResult {
                number: u32::from(error),
                bytes: [0u8; 48],
            },
        }
    }
}

// The bytes of the first six words.
fn first_six(h: [u64; 8]) -> [u8; 48]
    ensures { result ≡ first_six (hash_value h) }
{
    let bytes = h.map(u64::to_be_bytes);
    let mut out = [0u8; 48];
    out.copy_from_slice(&bytes.as_flattened()[..48]);
    out
}

// SHA-384 of a message.
fn hash(message: &[u8]) -> [u8; 48]
    requires { length message.now ≤ longest }
    ensures { result ≡ sha384 message.now }
{
    let mut h = initial();
    let n = message.len();
    let whole = n / 128 * 128;
    absorb(&K, &mut h, message);
    conclude(&K, &mut h, &message[whole..], n as u64);
    first_six(h)
}

// The digest of a message of at most 65,535 bytes; a longer one is refused.
pub fn digest(message: &[u8]) -> Result<[u8; 48], DigestError>
    ensures { result ≡ digest_of message.now }
{
    if message.len() > LONGEST {
        return Err(DigestError::TooLong);
    }
    Ok(hash(message))
}

// The same as a number and 48 bytes: a message that is too long gets 10 and zeros.
pub fn digest_numbered(message: &[u8]) -> DigestResult
    ensures { result ≡ numbered (digest_of message.now) }
{
    DigestResult::from(digest(message))
}

// The digest of a message of `total` bytes whose whole blocks have made the hash value `h`; the
// bytes past them are the first of `last`.
pub fn conclude_digest(h: [u64; 8], last: [u8; 128], total: u32) -> [u8; 48]
    ensures { result ≡ concluded h last total }
{
    let mut words = h;
    let n = (total % 128) as usize;
    conclude(&K, &mut words, &last[..n], u64::from(total));
    first_six(words)
}

// x extended by d.
pub fn extend(x: [u8; 48], d: [u8; 48]) -> [u8; 48]
    ensures { result ≡ extended x d }
{
    let message: [u8; 96] = joined(&x, &d);
    hash(&message)
}
