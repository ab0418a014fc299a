// Stash a measurement: declined, refused, or a stash at the lowest free node.
ghost use Rattle.std.specs.Prelude.{◌≡◌, false, [], ◌<◌, ◌≤◌, length};
ghost use Rattle.layout.specs.Sizes.{image_words, node_count};
ghost use Rattle.layout.specs.Words.{bytes4};
ghost use Rattle.tree.specs.Tree.{lowest_free, node_with, default_words};
ghost use Rattle.tree.specs.Nodes.{tree_in};
ghost use Rattle.opening.specs.Tasks.{request_of, stash};
ghost use Rattle.opening.specs.Rules.{answer_of, measurement_in, stash_measurement, stash_code, stash_length};
ghost use Rattle.opening.specs.Works.{work_at, stash_values};
ghost use Rattle.request.specs.Screen.{screened_opened};

use crate::answer::{declined, ready_with};
use crate::register::extended_register;
use layout::refusals::{DPE_ACCEPTED, Decline, Refusal};
use layout::{ATTESTATION_AT, HANDLE_BYTES, NODES, REGISTER_WORDS, STASH_REGISTER};
use making::Values;
use nodes::node_row;
use packing::four;
use sha384::digest::extend;
use slices::little_endian::read32;
use slices::strings::{bytes_of, joined};
use table::{Kind, StashAt};
use tree::formed::well_formed;
use tree::index::{free_index, holder_index};
use work::Work;

// Where the request's fields are.
const TYPE_FROM: usize = 4;

const DIGEST_FROM: usize = 8;

const SVN_FROM: usize = 56;

// The words that a stash will store, PCR31 and the new node below `holder`, and the digest that its entry
// tells.
fn stash_values(image: &[u32], bytes: &[u8], caller: u32, holder: usize) -> Values
    requires { (length bytes.now ≡ stash_length) × (holder ≤ node_count) × (holder ≡ node_with node_count (tree_in image.now) default_words) }
    ensures { result ≡ stash_values (measurement_in (request_of stash_code bytes.now caller [] false [])) image.now }
{
    let digest = bytes_of(bytes, DIGEST_FROM);
    let register = extended_register(image, STASH_REGISTER, digest);
    let cumulative = extend([0u8; 48], digest);
    let kind = read32(bytes, TYPE_FROM);
    let svn = read32(bytes, SVN_FROM);
    let node = node_row(
        holder as u16,
        [0u8; HANDLE_BYTES],
        0,
        digest,
        cumulative,
        kind,
        caller,
        svn,
    );
    let inputs = joined(&digest, &[0u8; 48]);
    Values {
        register,
        journey: [0u32; REGISTER_WORDS],
        node,
        secret: [0u32; REGISTER_WORDS],
        inputs,
    }
}

// An accepted stash, at the free node `node` below `holder`.
fn accepted(image: &[u32], bytes: &[u8], caller: u32, node: usize, holder: usize) -> Work
    requires bytes_len { (length bytes.now ≡ stash_length) × (node ≡ lowest_free node_count (tree_in image.now)) }
    requires holder_le_node_count { (holder ≤ node_count) × (holder ≡ node_with node_count (tree_in image.now) default_words) }
    ensures { result ≡ work_at image.now (stash (measurement_in (request_of stash_code bytes.now caller [] false []))) (answer_of (bytes4 0)) }
{
    let values = stash_values(image, bytes, caller, holder);
    let dpe = four(DPE_ACCEPTED);
    ready_with(Kind::Stash(StashAt { node, holder }), values, &dpe)
}

// The command, once length and checksum are fine.
#[inline(never)]
pub(crate) fn serve_stash(image: &[u32], bytes: &[u8], caller: u32) -> Result<Work, Refusal>
    requires { (length image.now ≡ image_words) × (length bytes.now ≡ stash_length) }
    ensures { result ≡ screened_opened stash_measurement image.now (request_of stash_code bytes.now caller [] false []) }
{
    if image[ATTESTATION_AT] != 1 {
        return Ok(declined(Decline::Off));
    }
    if !well_formed(image) {
        return Err(Refusal::NotWellFormed);
    }
    let holder = holder_index(image);
    if NODES <= holder {
        return Ok(declined(Decline::NoHolder));
    }
    let node = free_index(image);
    if NODES <= node {
        return Ok(declined(Decline::Full));
    }
    Ok(accepted(image, bytes, caller, node, holder))
}
