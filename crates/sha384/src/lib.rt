// SHA-384 (FIPS 180-4): the digest of a byte slice, "x extended by d", and what a digest in pieces
// needs: the constants, and the digest from a hash value on.
#![tactic(auto)]

pub mod constants;
pub mod digest;
pub mod errors;
mod padding;
