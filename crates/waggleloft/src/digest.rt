// The digest and the checksum for C.
ghost use Rattle.std.specs.Prelude.{◌≡◌, length};
ghost use Rattle.message.specs.Checksum.{checksum_of};
ghost use Rattle.waggleloft.specs.Digest.{digest_number, digest_buffer};

use sha384::digest::{LONGEST, digest};

// SHA-384 of the message into the first 48 bytes of the buffer: 0. Refused, with nothing written:
// 10, a message longer than 65,535 bytes; then 8, a buffer shorter than 48.
#[unsafe(no_mangle)]
#[tactic(auto, using(sha384::proofs::Sizes::digest_told), unfolding(crate::specs::Digest::digest_number, crate::specs::Digest::digest_buffer))]
pub extern "C" fn waggleloft_sha384(message: &[u8], buffer: &mut [u8]) -> u32
    ensures value { result ≡ digest_number message.now (length buffer.old) }
    ensures buffer_after { buffer.new ≡ digest_buffer message.now buffer.old }
{
    // Before anything is hashed, so that a refused call costs nothing.
    if message.len() <= LONGEST && buffer.len() < 48 {
        return 8;
    }
    let bytes = match digest(message) {
        Ok(bytes) => bytes,
        Err(error) => return u32::from(error),
    };
    buffer[..48].copy_from_slice(&bytes);
    0
}

// The checksum of a command code and of the bytes after the checksum field; never refused.
#[unsafe(no_mangle)]
pub extern "C" fn waggleloft_checksum(code: u32, bytes: &[u8]) -> u32
    ensures { result ≡ checksum_of code bytes.now }
{
    message::checksum(code, bytes)
}
