// A running digest: SHA-384 of bytes that come in slices.
#![tactic(auto)]

ghost use Rattle.std.specs.Prelude.{◌≡◌, ◌+◌, ◌≤◌, ◌<◌, cond, length, OnOk, OnErr, IfErr};
ghost use Rattle.sha384.specs.declared.errors.DigestError.TheVariants.{Damaged};
ghost use Rattle.sha384.specs.Errors.{numbered};
ghost use Rattle.running.specs.Running.{longest_total, begun, agrees, admitted, feed_result, fed_of, finish_result};

use sha_block::blocks::absorb;
use sha384::constants::{K, initial};
use sha384::digest::{DigestResult, LONGEST, conclude_digest};
use sha384::errors::DigestError;

// The largest total, in bytes.
pub const LONGEST_TOTAL: u64 = 0xFFFFFFFF;

// `total` counts the bytes taken, `waiting` those past the last whole block, which are the first of
// `buffer`; `hash` is the hash value after the whole blocks.
// (kept: a buffer with its count, as there is no heap; the definitions take the state as this record)
#[derive(Clone, Copy)]
pub struct Running {
    pub total: u64,
    pub waiting: u64,
    pub buffer: [u8; 128],
    pub hash: [u64; 8],
}

// The state before any byte.
pub fn begin() -> Running
    ensures { result ≡ begun }
{
    let hash = initial();
    Running {
        total: 0,
        waiting: 0,
        buffer: [0u8; 128],
        hash,
    }
}

impl Running {
    // The total, where the counts agree and it is not too large.
    fn agreed_total(&self) -> Result<u32, DigestError>
        ensures { result ≡ cond (agrees self.now) (Ok self.now.total) (Err Damaged) }
    {
        if self.waiting == self.total % 128 && self.total <= LONGEST_TOTAL {
            Ok(self.total as u32)
        } else {
            Err(DigestError::Damaged)
        }
    }

    // Whether a slice of n bytes is accepted.
    fn admit(&self, n: usize) -> Result<(), DigestError>
        ensures { result ≡ admitted self.now n tt }
    {
        let before = self.agreed_total()?;
        if n > LONGEST {
            return Err(DigestError::TooLong);
        }
        if u64::from(before) + (n as u64) > LONGEST_TOTAL {
            return Err(DigestError::TotalTooLong);
        }
        Ok(())
    }

    // Takes a slice that leaves less than a block waiting.
    fn keep(&mut self, slice: &[u8])
        requires { (self.old.waiting + length slice.now < 128) × (self.old.total ≤ longest_total) }
        ensures { self.new ≡ fed_of self.old slice.now }
    {
        let w = self.waiting as usize;
        let n = slice.len();
        let mut buffer = [0u8; 128];
        buffer[..w].copy_from_slice(&self.buffer[..w]);
        buffer[w..w + n].copy_from_slice(slice);
        let more = n as u64;
        self.total += more;
        self.waiting += more;
        self.buffer = buffer;
    }

    // Takes a slice that fills the block that waits.
    fn absorb(&mut self, slice: &[u8])
        requires waiting_bound { (self.old.waiting < 128) × (128 ≤ self.old.waiting + length slice.now) }
        requires slice_bound { self.old.total + length slice.now ≤ longest_total }
        ensures { self.new ≡ fed_of self.old slice.now }
    {
        let w = self.waiting as usize;
        let n = slice.len();
        let fill = 128 - w;
        let mut block = self.buffer;
        block[w..].copy_from_slice(&slice[..fill]);
        absorb(&K, &mut self.hash, &block);
        absorb(&K, &mut self.hash, &slice[fill..]);
        let left = (n - fill) % 128;
        let mut buffer = [0u8; 128];
        buffer[..left].copy_from_slice(&slice[n - left..]);
        self.total += n as u64;
        self.waiting = left as u64;
        self.buffer = buffer;
    }

    // Takes one slice more. Refused, with the state as it was: counts that disagree or a total above
    // 2^32 - 1; then a slice longer than 65,535 bytes; then a total that would be too large.
    pub fn feed(&mut self, slice: &[u8]) -> Result<(), DigestError>
        ensures ok { OnOk result (feed_result self.old slice.now ≡ Ok self.new) }
        ensures err { IfErr result (λ e. feed_result self.old slice.now ≡ Err e) }
        ensures stays { OnErr result (self.new ≡ self.old) }
    {
        self.admit(slice.len())?;
        if self.waiting + (slice.len() as u64) < 128 {
            self.keep(slice);
        } else {
            self.absorb(slice);
        }
        Ok(())
    }

    // The digest of all bytes taken; refused where the counts disagree or the total is too large.
    pub fn finish(&self) -> Result<[u8; 48], DigestError>
        ensures { result ≡ finish_result self.now }
    {
        let total = self.agreed_total()?;
        Ok(conclude_digest(self.hash, self.buffer, total))
    }

    // The same as a number and 48 bytes: a finish that is refused gets 27 and zeros.
    pub fn finish_numbered(&self) -> DigestResult
        ensures { result ≡ numbered (finish_result self.now) }
    {
        DigestResult::from(self.finish())
    }
}
