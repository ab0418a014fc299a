// The store table (document 01, "Work, one word at a time"): the kinds of work, how many stores each has,
// and the word and the value of each store.
#![tactic(auto)]

pub mod coding;
mod puts;
mod row;

ghost use Rattle.std.specs.Prelude.{◌≡◌, true, ◌<◌, ltb, get_or, []};
ghost use Rattle.layout.specs.Below.{all_below};
ghost use Rattle.layout.specs.Sizes.{node_count, image_words};
ghost use Rattle.table.specs.Table.{number_of, index_ok, put_from, runs_for, sought, store_at};

use crate::puts::{
    COLD_STORES, DERIVE_STORES, DISABLING_STORES, EXTEND_STORES, EXTEND_WORDS, EXTENSION_STORES,
    REPLACE_STORES, ROTATE_STORES, STASH_STORES, UPDATE_STORES, cold_row, destroy_row,
    destroy_stores, disabling_row, extension_row, part_row, replace_row, stash_row, update_row,
};
use crate::row::Row;
use layout::registers::may_extend;
use layout::{CURRENT_AT, HANDLE_AT, HANDLE_WORDS, NODE_WORDS, NODES};
use packing::word;

// Where a stash stores: the new node, and the node that held the default handle.
#[derive(Clone, Copy, Debug, PartialEq, Eq)]
pub struct StashAt {
    pub node: usize,
    pub holder: usize,
}

// An update carries its root's index: a well-formed image's root may be any node. An extension carries its
// register. Of a tree command: a derived child's node, and where its parent is retired that too (`Replace`);
// the node of an extend or a rotate; how many nodes a destroy frees, whose indices are the work's node words.
#[derive(Clone, Copy, Debug, PartialEq, Eq)]
pub enum Kind {
    Nothing,
    Disabling,
    Stash(StashAt),
    Update(usize),
    ColdBoot,
    Extension(usize),
    Derive(usize),
    Replace(StashAt),
    Extend(usize),
    Rotate(usize),
    Destroy(usize),
}

// One store: a word and its value.
#[derive(Clone, Copy)]
pub struct Put {
    pub address: usize,
    pub value: u32,
}

// A store that nobody makes.
const NO_STORE: Put = Put {
    address: 0,
    value: 0,
};

// The words that a work prepares, lent: what its stores take their values from.
#[derive(Clone, Copy)]
pub struct Prepared<'a> {
    pub register: &'a [u32],
    pub journey: &'a [u32],
    pub node: &'a [u32],
    pub secret: &'a [u32],
}

// The number of stores of a kind of work.
#[tactic(auto, unfolding(crate::specs::Table::number_of))]
pub fn number(kind: Kind) -> usize
    ensures { result ≡ number_of kind }
{
    match kind {
        Kind::Nothing => 0,
        Kind::Disabling => DISABLING_STORES,
        Kind::Stash(_) => STASH_STORES,
        Kind::Update(_) => UPDATE_STORES,
        Kind::ColdBoot => COLD_STORES,
        Kind::Extension(_) => EXTENSION_STORES,
        Kind::Derive(_) => DERIVE_STORES,
        Kind::Replace(_) => REPLACE_STORES,
        Kind::Extend(_) => EXTEND_STORES,
        Kind::Rotate(_) => ROTATE_STORES,
        Kind::Destroy(count) => destroy_stores(count),
    }
}

// Whether the first words are nodes' indices, as many as `count`.
fn nodes_first(words: &[u32], count: usize) -> bool
    ensures { result ≡ all_below count (λ j. ltb (get_or words.now j 0) node_count) }
{
    for j in 0..count {
        if NODES <= word(words, j) as usize {
            return false;
        }
    }
    true
}

// Whether no index of a kind is beyond the nodes, those that a destroy has in its node words included, and
// no register outside those that may be extended.
#[tactic(auto, unfolding(crate::specs::Table::index_ok))]
pub fn index_ok(kind: Kind, node: &[u32]) -> bool
    ensures { result ≡ index_ok kind node.now }
{
    match kind {
        Kind::Nothing => true,
        Kind::Disabling => true,
        Kind::Stash(at) => at.node < NODES && at.holder < NODES,
        Kind::Update(root) => root < NODES,
        Kind::ColdBoot => true,
        Kind::Extension(register) => may_extend(register),
        Kind::Derive(i) => i < NODES,
        Kind::Replace(at) => at.node < NODES && at.holder < NODES,
        Kind::Extend(i) => i < NODES,
        Kind::Rotate(i) => i < NODES,
        Kind::Destroy(count) => count <= NODES && nodes_first(node, count),
    }
}

// The row of a kind of work, gone through for its store k.
fn row_of(kind: Kind, k: usize, words: &Prepared) -> Row
    requires { index_ok kind words.now.node.now ≡ true }
    ensures { sought result [] ≡ put_from 0 (runs_for kind words.now.register.now words.now.journey.now words.now.node.now words.now.secret.now) k }
{
    match kind {
        Kind::Nothing => Row::new(k),
        Kind::Disabling => disabling_row(k),
        Kind::Stash(at) => stash_row(at, words.register, words.node, k),
        Kind::Update(root) => update_row(root, words, k),
        Kind::ColdBoot => cold_row(words, k),
        Kind::Extension(at) => extension_row(at, words.register, k),
        Kind::Derive(i) => part_row(i, 0, NODE_WORDS, words.node, k),
        Kind::Replace(at) => replace_row(at, words.node, k),
        Kind::Extend(i) => part_row(i, CURRENT_AT, EXTEND_WORDS, words.node, k),
        Kind::Rotate(i) => part_row(i, HANDLE_AT, HANDLE_WORDS, words.node, k),
        Kind::Destroy(count) => destroy_row(count, words.node, k),
    }
}

// Store k of a kind of work; of a kind with an index that is not fine, or past its last store, a store that
// nobody makes.
pub fn put_at(kind: Kind, k: usize, words: &Prepared) -> Put
    ensures value { result ≡ store_at kind k words.now.register.now words.now.journey.now words.now.node.now words.now.secret.now }
    ensures address_lt_image_words { result.address < image_words }
{
    if index_ok(kind, words.node) && k < number(kind) {
        return row_of(kind, k, words).put();
    }
    NO_STORE
}
