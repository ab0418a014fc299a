// Why a tree command is declined (document 02, §5). An image, a command and a lent handle of any content
// and length.
#![tactic(auto)]

mod handles;

ghost use Rattle.std.specs.Prelude.{◌≡◌, IfOk};
ghost use Rattle.layout.specs.Sizes.{node_count};
ghost use Rattle.tree.specs.Tree.{node_with};
ghost use Rattle.tree.specs.Nodes.{tree_in};
ghost use Rattle.nodes.specs.Record.{handle_row};
ghost use Rattle.grounds.specs.Ground.{dpe_result, first_of, ground_of, handle_declines, derive_declines, extend_declines, rotate_declines, destroy_declines};

use crate::handles::{all_are, is_unfit};
use layout::refusals::Decline;
use layout::{HANDLE_BYTES, NODES, RETIRED_WORD};
use nodes::handle_words;
use orders::Order;
use tree::freed::childless;
use tree::index::{free_index, handle_index, locality_at, root_at};

// The node that a command names: one holds the handle, and the caller has its locality.
fn named(image: &[u32], handle: [u8; HANDLE_BYTES], caller: u32) -> Result<usize, Decline>
    ensures value { dpe_result result ≡ first_of (handle_declines (tree_in image.now) handle caller) }
    ensures node { IfOk result (λ i. i ≡ node_with node_count (tree_in image.now) (handle_row handle)) }
{
    let words = handle_words(handle);
    let node = handle_index(image, words);
    if all_are(words, RETIRED_WORD) || NODES <= node {
        return Err(Decline::NoHandle);
    }
    let locality = locality_at(image, node);
    if locality != caller {
        return Err(Decline::Caller);
    }
    Ok(node)
}

fn derive_ground(image: &[u32], fresh: &[u8]) -> Result<(), Decline>
    ensures { dpe_result result ≡ first_of (derive_declines (tree_in image.now) fresh.now) }
{
    if is_unfit(image, fresh) {
        return Err(Decline::Fresh);
    }
    if NODES <= free_index(image) {
        return Err(Decline::Full);
    }
    Ok(())
}

fn extend_ground(image: &[u32], node: usize) -> Result<(), Decline>
    ensures { dpe_result result ≡ first_of (extend_declines (tree_in image.now) node) }
{
    if root_at(image, node) {
        return Err(Decline::Root);
    }
    Ok(())
}

fn rotate_ground(image: &[u32], fresh: &[u8]) -> Result<(), Decline>
    ensures { dpe_result result ≡ first_of (rotate_declines (tree_in image.now) fresh.now) }
{
    if is_unfit(image, fresh) {
        return Err(Decline::Fresh);
    }
    Ok(())
}

fn destroy_ground(image: &[u32], node: usize) -> Result<(), Decline>
    ensures { dpe_result result ≡ first_of (destroy_declines (tree_in image.now) node) }
{
    if root_at(image, node) {
        return Err(Decline::Root);
    }
    if !childless(image, node) {
        return Err(Decline::Children);
    }
    Ok(())
}

// The data first, where a derive's retain is 1 or 0, then the handle and the caller, then what the command asks.
#[tactic(auto, using(crate::proofs::Parted::by_handle, crate::proofs::Parted::by_command, crate::proofs::Parted::not_accepted), unfolding(crate::specs::Ground::ground_of, orders::specs::Told::command_from))]
pub fn ground(image: &[u32], order: Order, fresh: &[u8], caller: u32) -> Result<(), Decline>
    ensures { dpe_result result ≡ ground_of image.now order fresh.now caller }
{
    match order {
        Order::Derive(fields) => {
            if 1 < fields.retain {
                return Err(Decline::Malformed);
            }
            named(image, fields.handle, caller)?;
            derive_ground(image, fresh)
        }
        Order::Extend { handle, .. } => {
            let node = named(image, handle, caller)?;
            extend_ground(image, node)
        }
        Order::Rotate(handle) => {
            named(image, handle, caller)?;
            rotate_ground(image, fresh)
        }
        Order::Destroy(handle) => {
            let node = named(image, handle, caller)?;
            destroy_ground(image, node)
        }
        Order::Malformed => Err(Decline::Malformed),
    }
}
