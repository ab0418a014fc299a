// Opening an update boot: a disabling where anything is amiss, else kept or updated by ROM's verdict.
ghost use Rattle.std.specs.Prelude.{◌≡◌, [], ◌≤◌, length};
ghost use Rattle.layout.specs.Sizes.{image_words, node_count};
ghost use Rattle.tree.specs.Tree.{root_in};
ghost use Rattle.tree.specs.Nodes.{tree_in};
ghost use Rattle.opening.specs.Tasks.{boot_of, update};
ghost use Rattle.opening.specs.Lent.{boot_in};
ghost use Rattle.opening.specs.Works.{work_at, update_values};
ghost use Rattle.opening.specs.Openings.{boot_number, outcome_in, root_matches, intact, open_update_boot};
ghost use Rattle.boot.specs.Given.{given, update_ruled};

use crate::inputs::{Inputs, accepted, digests_of, extend_by_boot};
use crate::ready::ready_with;
use layout::refusals::Refusal;
use layout::{
    ATTESTATION_AT, CUMULATIVE_AT, CURRENT_AT, IMAGE_WORDS, MARK_AT, NODE_WORDS, NODES_AT, PCR3_AT,
    REGISTER_WORDS,
};
use making::{Values, bare_work};
use opening::extended::extended_row;
use opening::inputs::BootInputs;
use opening::{Opened, Outcome};
use packing::{bytes_in, word};
use slices::little_endian::pack;
use table::Kind;
use tree::formed::well_formed;
use tree::index::root_index;
use work::Work;

// The root's current measurement equals PCR3, word for word.
fn root_matches(image: &[u32], root: usize) -> bool
    requires { (root ≡ root_in node_count (tree_in image.now)) × (root ≤ node_count) }
    ensures { result ≡ root_matches image.now }
{
    let at = NODES_AT + NODE_WORDS * root;
    (0..REGISTER_WORDS).all(|k| word(image, at + (CURRENT_AT + k)) == word(image, PCR3_AT + k))
}

#[tactic(auto, unfolding(opening::specs::Openings::intact))]
fn is_intact(image: &[u32]) -> bool
    requires { length image.now ≡ image_words }
    ensures { result ≡ intact image.now }
{
    image[MARK_AT] == 1
        && image[ATTESTATION_AT] == 1
        && well_formed(image)
        && root_matches(image, root_index(image))
}

// The words that an update will store, and the digests that its entry tells.
fn update_values(image: &[u32], root: usize, x: Inputs) -> Values
    requires { (root ≤ node_count) × (root ≡ root_in node_count (tree_in image.now)) }
    ensures { result ≡ update_values (given x) image.now }
{
    let current = extend_by_boot([0u8; 48], x);
    let journey = extend_by_boot(bytes_in(image, PCR3_AT), x);
    let register = pack(&current, 0);
    let words = pack(&journey, 0);
    let before = bytes_in(image, NODES_AT + NODE_WORDS * root + CUMULATIVE_AT);
    let node = extended_row(before, journey);
    let secret = x.secret;
    let kept = pack(&secret, 0);
    let inputs = digests_of(x);
    Values {
        register,
        journey: words,
        node,
        secret: kept,
        inputs,
    }
}

// An update, by ROM's verdict.
fn updated(image: &[u32], x: Inputs) -> Work
    ensures { result ≡ work_at image.now (update (given x)) [] }
{
    let root = root_index(image);
    let values = update_values(image, root, x);
    ready_with(Kind::Update(root), values)
}

// The work that an update boot opens.
fn update_work(image: &[u32], lent: BootInputs, verdict: bool) -> Result<(Work, Outcome), Refusal>
    ensures { result ≡ update_ruled image.now (boot_in lent.entry) verdict }
{
    // Tested here and not by `screened`, so that what follows is compiled for an image of this length.
    if image.len() != IMAGE_WORDS {
        return Err(Refusal::WrongImage);
    }
    let x = accepted(lent)?;
    if !is_intact(image) {
        return Ok((bare_work(Kind::Disabling), Outcome::Disabled));
    }
    if !verdict {
        return Ok((bare_work(Kind::Nothing), Outcome::Kept));
    }
    Ok((updated(image, x), Outcome::Updated))
}

// Opens an update boot: it reads the image and changes nothing.
// The inputs stay loose parameters, since the C interface (`waggleloft_open_update_boot`) takes them so.
pub fn open_update_boot(
    image: &[u32],
    runtime: &[u8],
    manifest: &[u8],
    secret: &[u8],
    verdict: bool,
) -> Opened<Outcome>
    ensures value { result ≡ open_update_boot image.now (boot_of runtime.now manifest.now secret.now) verdict }
    ensures status_value { boot_number result.status ≡ boot_number (open_update_boot image.now (boot_of runtime.now manifest.now secret.now) verdict).status }
    ensures status_value_2 { outcome_in result.status ≡ outcome_in (open_update_boot image.now (boot_of runtime.now manifest.now secret.now) verdict).status }
{
    let lent = BootInputs {
        runtime,
        manifest,
        secret,
    };
    Opened::from(update_work(image, lent, verdict))
}
