// The store table of document 01: for each kind of work, the word and the value of store k.
//
// Each function is the table's row from top to bottom, a line for each field, as its definition has them.
ghost use Rattle.std.specs.Prelude.{◌≡◌, true, ◌+◌, ◌≤◌, ◌<◌, ltb, get_or, []};
ghost use Rattle.layout.specs.Below.{all_below};
ghost use Rattle.layout.specs.Sizes.{node_count, node_words, node_at, extend_last};
ghost use Rattle.table.specs.Table.{put_from, sought, stash_runs, disabling_runs, update_runs, cold_runs, extension_runs, part_runs, replace_runs, destroy_runs, number_of};
ghost use Rattle.table.specs.declared.Kind.TheVariants.{Destroy};

use crate::row::Row;
use crate::{Prepared, StashAt};
use layout::{
    ATTESTATION_AT, CUMULATIVE_AT, CURRENT_AT, HANDLE_AT, HANDLE_WORDS, IMAGE_WORDS, MARK_AT,
    NODE_WORDS, NODES, NODES_AT, PCR2_AT, PCR3_AT, PCR31_AT, REGISTER_WORDS, REGISTERS_AT,
    RETIRED_WORD, SECRET_AT,
};

// Attestation's values: disabling and cold boot go on with it.
const OFF: u32 = 0;

const ON: u32 = 1;

// Each row begins with mark 0 and ends with mark 1.
const MARKS: usize = 2;

// Where a node begins.
// (kept: the index's bound stands as a clause of this, `part_row` and `Row::part`: a kind holds plain indices, which C gives and
// `index_ok` tests once)
#[inline(always)]
fn node_at(i: usize) -> usize
    requires { i < node_count }
    ensures { result ≡ node_at i }
{
    NODES_AT + NODE_WORDS * i
}

// Stash: mark 0; PCR31; the new node; the old holder's five handle words; mark 1.
pub(crate) const STASH_STORES: usize = MARKS + REGISTER_WORDS + NODE_WORDS + HANDLE_WORDS;

pub(crate) fn stash_row(at: StashAt, register: &[u32], node: &[u32], k: usize) -> Row
    requires node_lt_node_count { at.node < node_count }
    requires holder_lt_node_count { at.holder < node_count }
    ensures { sought result [] ≡ put_from 0 (stash_runs at register.now node.now) k }
{
    Row::new(k)
        .one(MARK_AT, 0)
        .copy(PCR31_AT, REGISTER_WORDS, register)
        .copy(node_at(at.node), NODE_WORDS, node)
        .fill(node_at(at.holder) + HANDLE_AT, HANDLE_WORDS, RETIRED_WORD)
        .one(MARK_AT, 1)
}

// Disabling: mark 0; word 1 zero; secret zero; mark 1.
pub(crate) const DISABLING_STORES: usize = MARKS + 1 + REGISTER_WORDS;

pub(crate) fn disabling_row(k: usize) -> Row
    ensures { sought result [] ≡ put_from 0 disabling_runs k }
{
    Row::new(k)
        .one(MARK_AT, 0)
        .one(ATTESTATION_AT, OFF)
        .fill(SECRET_AT, REGISTER_WORDS, 0)
        .one(MARK_AT, 1)
}

// Update: mark 0; PCR2; PCR3; secret; root's current; root's cumulative; mark 1.
pub(crate) const UPDATE_STORES: usize = MARKS + 5 * REGISTER_WORDS;

pub(crate) fn update_row(root: usize, words: &Prepared, k: usize) -> Row
    requires root_lt_node_count { root < node_count }
    ensures { sought result [] ≡ put_from 0 (update_runs root words.now.register.now words.now.journey.now words.now.node.now words.now.secret.now) k }
{
    Row::new(k)
        .one(MARK_AT, 0)
        .copy(PCR2_AT, REGISTER_WORDS, words.register)
        .copy(PCR3_AT, REGISTER_WORDS, words.journey)
        .copy(SECRET_AT, REGISTER_WORDS, words.secret)
        .part(root, CURRENT_AT, REGISTER_WORDS, words.node)
        .part(root, CUMULATIVE_AT, REGISTER_WORDS, words.node)
        .one(MARK_AT, 1)
}

// Cold boot: mark 0; words 1 to the last; mark 1. All is zero but word 1, the secret, PCR2, PCR3 and the root.
pub(crate) const COLD_STORES: usize = IMAGE_WORDS + 1;

// Behind PCR3.
const PCR4_AT: usize = PCR3_AT + REGISTER_WORDS;

pub(crate) fn cold_row(words: &Prepared, k: usize) -> Row
    ensures { sought result [] ≡ put_from 0 (cold_runs words.now.register.now words.now.journey.now words.now.node.now words.now.secret.now) k }
{
    Row::new(k)
        .one(MARK_AT, 0)
        .one(ATTESTATION_AT, ON)
        .fill(2, SECRET_AT - 2, 0)
        .copy(SECRET_AT, REGISTER_WORDS, words.secret)
        .fill(REGISTERS_AT, PCR2_AT - REGISTERS_AT, 0)
        .copy(PCR2_AT, REGISTER_WORDS, words.register)
        .copy(PCR3_AT, REGISTER_WORDS, words.journey)
        .fill(PCR4_AT, NODES_AT - PCR4_AT, 0)
        .copy(NODES_AT, NODE_WORDS, words.node)
        .fill(NODES_AT + NODE_WORDS, (NODES - 1) * NODE_WORDS, 0)
        .one(MARK_AT, 1)
}

// Extension: mark 0; the register; mark 1.
pub(crate) const EXTENSION_STORES: usize = MARKS + REGISTER_WORDS;

pub(crate) fn extension_row(at: usize, register: &[u32], k: usize) -> Row
    requires at_le_extend_last { at ≤ extend_last }
    ensures { sought result [] ≡ put_from 0 (extension_runs at register.now) k }
{
    Row::new(k)
        .one(MARK_AT, 0)
        .copy(REGISTERS_AT + REGISTER_WORDS * at, REGISTER_WORDS, register)
        .one(MARK_AT, 1)
}

// Words of one node, as many as `words` from its word `from` on: mark 0; the words; mark 1. A derived child's
// node, an extend's current and cumulative, a rotate's handle.
pub(crate) const DERIVE_STORES: usize = MARKS + NODE_WORDS;

pub(crate) const EXTEND_WORDS: usize = 2 * REGISTER_WORDS;

pub(crate) const EXTEND_STORES: usize = MARKS + EXTEND_WORDS;

pub(crate) const ROTATE_STORES: usize = MARKS + HANDLE_WORDS;

pub(crate) fn part_row(i: usize, from: usize, words: usize, node: &[u32], k: usize) -> Row
    requires i_lt_node_count { i < node_count }
    requires words_bound { from + words ≤ node_words }
    ensures { sought result [] ≡ put_from 0 (part_runs i from words node.now) k }
{
    Row::new(k)
        .one(MARK_AT, 0)
        .part(i, from, words, node)
        .one(MARK_AT, 1)
}

// Derive without retain: mark 0; the new node; the parent's five handle words; mark 1.
pub(crate) const REPLACE_STORES: usize = MARKS + NODE_WORDS + HANDLE_WORDS;

pub(crate) fn replace_row(at: StashAt, node: &[u32], k: usize) -> Row
    requires node_lt_node_count { at.node < node_count }
    requires holder_lt_node_count { at.holder < node_count }
    ensures { sought result [] ≡ put_from 0 (replace_runs at node.now) k }
{
    let StashAt {
        node: child,
        holder: parent,
    } = at;
    Row::new(k)
        .one(MARK_AT, 0)
        .copy(node_at(child), NODE_WORDS, node)
        .fill(node_at(parent) + HANDLE_AT, HANDLE_WORDS, RETIRED_WORD)
        .one(MARK_AT, 1)
}

// Destroy: mark 0; the freed nodes, upwards, all zero; mark 1. More nodes than there are have no stores.
pub(crate) fn destroy_stores(count: usize) -> usize
    ensures { result ≡ number_of (Destroy count) }
{
    if count <= NODES {
        return MARKS + NODE_WORDS * count;
    }
    0
}

pub(crate) fn destroy_row(count: usize, freed: &[u32], k: usize) -> Row
    requires count_le_node_count { count ≤ node_count }
    requires node_count_value { all_below count (λ j. ltb (get_or freed.now j 0) node_count) ≡ true }
    ensures { sought result [] ≡ put_from 0 (destroy_runs count freed.now) k }
{
    Row::new(k)
        .one(MARK_AT, 0)
        .clear(count, freed)
        .one(MARK_AT, 1)
}
