// An answer's bytes (checksum, FIPS status 0, and the rest), and the works that carry one.
ghost use Rattle.std.specs.Prelude.{◌≡◌, ◌++◌, ◌+◌, ◌-◌, ◌≤◌, length, take, drop};
ghost use Rattle.layout.specs.Sizes.{answer_max};
ghost use Rattle.layout.specs.Refusals.{decline_number};
ghost use Rattle.layout.specs.Words.{bytes4};
ghost use Rattle.message.specs.Checksum.{checksum_of};
ghost use Rattle.making.specs.Made.{answer_in, work_with, plain_work};
ghost use Rattle.opening.specs.Rules.{answer_of};

use layout::ANSWER_MAX;
use layout::bytes::Bytes;
use layout::refusals::Decline;
use making::{Values, new_work, no_values};
use packing::four;
use table::Kind;
use work::Work;

// Puts in front the checksum of the bytes behind its field, up to `end`, with the code taken as zero.
fn put_checksum(out: &mut [u8], end: usize)
    requires { (8 ≤ end) × (end ≤ length out.old) }
    ensures { out.new ≡ bytes4 (checksum_of 0 (take (end - 4) (drop 4 out.old))) ++ drop 4 out.old }
{
    let sum = four(message::checksum(0, &out[4..end]));
    out[..4].copy_from_slice(&sum);
}

fn sealed(rest: &[u8]) -> Bytes<ANSWER_MAX>
    requires { length rest.now + 8 ≤ answer_max }
    ensures { result ≡ answer_in (answer_of rest.now) }
{
    let end = rest.len() + 8;
    let mut out = [0u8; ANSWER_MAX];
    out[8..end].copy_from_slice(rest);
    put_checksum(&mut out, end);
    Bytes {
        bytes: out,
        len: end,
    }
}

// A request is ready: a work of which no store is made, with its answer.
pub(crate) fn ready_with(kind: Kind, values: Values, rest: &[u8]) -> Work
    requires { length rest.now + 8 ≤ answer_max }
    ensures { result ≡ work_with kind values (answer_of rest.now) }
{
    new_work(kind, values, sealed(rest))
}

// The same with a work that stores no prepared word.
pub(crate) fn ready_plain(kind: Kind, rest: &[u8]) -> Work
    requires { length rest.now + 8 ≤ answer_max }
    ensures { result ≡ plain_work kind (answer_of rest.now) }
{
    ready_with(kind, no_values(), rest)
}

// A request is declined: nothing to store, and its dpe result in the answer.
pub(crate) fn declined(decline: Decline) -> Work
    ensures { result ≡ plain_work Kind.Nothing (answer_of (bytes4 (decline_number decline))) }
{
    ready_plain(Kind::Nothing, &four(u32::from(decline)))
}
