// EXTEND_PCR: refused, or an extension of one of the registers that a request may extend.
ghost use Rattle.std.specs.Prelude.{◌≡◌, true, false, [], length};
ghost use Rattle.layout.specs.Sizes.{image_words, extendable};
ghost use Rattle.opening.specs.Tasks.{request_of, extension};
ghost use Rattle.opening.specs.Rules.{answer_of, extension_in, extend_register, extend_code, extend_length};
ghost use Rattle.opening.specs.Works.{work_at, extension_values};
ghost use Rattle.request.specs.Screen.{screened_opened};

use crate::answer::ready_with;
use crate::register::extended_register;
use layout::refusals::Refusal;
use layout::registers::may_extend;
use layout::{ATTESTATION_AT, NODE_WORDS, REGISTER_WORDS};
use making::Values;
use slices::little_endian::read32;
use slices::strings::{bytes_of, joined};
use table::Kind;
use work::Work;

// Where the request's fields are.
const REGISTER_FROM: usize = 4;

const DIGEST_FROM: usize = 8;

// The register's number.
fn register_in(bytes: &[u8]) -> usize
    ensures { result ≡ (extension_in (request_of extend_code bytes.now 0 [] false [])).register }
{
    read32(bytes, REGISTER_FROM) as usize
}

// The words that an extension will store, its register's, and the digest that its entry tells.
fn extension_values(image: &[u32], bytes: &[u8], register: usize) -> Values
    requires { (length bytes.now ≡ extend_length) × (extendable register ≡ true) × (register ≡ (extension_in (request_of extend_code bytes.now 0 [] false [])).register) }
    ensures { result ≡ extension_values (extension_in (request_of extend_code bytes.now 0 [] false [])) image.now }
{
    let digest = bytes_of(bytes, DIGEST_FROM);
    let words = extended_register(image, register, digest);
    let inputs = joined(&digest, &[0u8; 48]);
    Values {
        register: words,
        journey: [0u32; REGISTER_WORDS],
        node: [0u32; NODE_WORDS],
        secret: [0u32; REGISTER_WORDS],
        inputs,
    }
}

// An accepted extension.
fn accepted(image: &[u32], bytes: &[u8], register: usize) -> Work
    requires { (length bytes.now ≡ extend_length) × (extendable register ≡ true) × (register ≡ (extension_in (request_of extend_code bytes.now 0 [] false [])).register) }
    ensures { result ≡ work_at image.now (extension (extension_in (request_of extend_code bytes.now 0 [] false []))) (answer_of []) }
{
    let values = extension_values(image, bytes, register);
    ready_with(Kind::Extension(register), values, &[])
}

// The command, once length and checksum are fine.
#[inline(never)]
pub(crate) fn serve_extend(image: &[u32], bytes: &[u8]) -> Result<Work, Refusal>
    requires { (length image.now ≡ image_words) × (length bytes.now ≡ extend_length) }
    ensures { result ≡ screened_opened extend_register image.now (request_of extend_code bytes.now 0 [] false []) }
{
    let register = register_in(bytes);
    if !may_extend(register) {
        return Err(Refusal::WrongRegister);
    }
    if image[ATTESTATION_AT] != 1 {
        return Err(Refusal::AttestationOff);
    }
    Ok(accepted(image, bytes, register))
}
