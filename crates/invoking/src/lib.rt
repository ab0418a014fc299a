// A tree command's work (document 02, §5): its kind, and the values that it will store. Every image, every
// command and a fresh handle of any length have one; whether a command is accepted is not asked here.
#![tactic(auto)]

mod inputs;
mod rows;

ghost use Rattle.std.specs.Prelude.{◌≡◌, cond, [], ◌≤◌, eqb};
ghost use Rattle.layout.specs.Sizes.{node_count};
ghost use Rattle.tree.specs.Tree.{node_with};
ghost use Rattle.tree.specs.Nodes.{tree_in};
ghost use Rattle.nodes.specs.Record.{handle_row};
ghost use Rattle.opening.specs.Orders.{derive, extend, rotate, destroy, malformed};
ghost use Rattle.opening.specs.Works.{node_values};
ghost use Rattle.orders.specs.Told.{command_from};
ghost use Rattle.invoking.specs.Planned.{planned_of};

use crate::inputs::{fresh_bytes, inputs_of};
use crate::rows::{child_row, with_caller};
use journal_bytes::read::DeriveFields;
use layout::{CUMULATIVE_AT, HANDLE_BYTES, INPUT_BYTES, NODE_WORDS, NODES_AT, REGISTER_WORDS};
use making::{Values, no_values};
use nodes::{handle_row, handle_words};
use opening::extended::extended_row;
use orders::Order;
use packing::bytes_in;
use table::{Kind, StashAt};
use tree::freed::freed_by;
use tree::index::{free_index, handle_index};

#[derive(Clone, Copy)]
pub struct Planned {
    pub kind: Kind,
    pub values: Values,
}

// The node that holds a handle; the number of nodes where none does.
// (kept: a number and no `Option`, as a tree command has a work at that index too)
fn named(image: &[u32], handle: [u8; HANDLE_BYTES]) -> usize
    ensures value { result ≡ node_with node_count (tree_in image.now) (handle_row handle) }
    ensures upper_bound { result ≤ node_count }
{
    handle_index(image, handle_words(handle))
}

// Node words and inputs; a tree command stores no register and no secret.
fn node_values(node: [u32; NODE_WORDS], inputs: [u8; INPUT_BYTES]) -> Values
    ensures { result ≡ node_values node inputs }
{
    Values {
        register: [0u32; REGISTER_WORDS],
        journey: [0u32; REGISTER_WORDS],
        node,
        secret: [0u32; REGISTER_WORDS],
        inputs,
    }
}

// A child at `node`; its parent is retired unless it is retained.
fn derive_kind(retain: u32, node: usize, parent: usize) -> Kind
    ensures { result ≡ cond (eqb retain 0) (Kind.Replace (record { node = node; holder = parent })) (Kind.Derive node) }
{
    if retain == 0 {
        return Kind::Replace(StashAt {
            node,
            holder: parent,
        });
    }
    Kind::Derive(node)
}

fn plan_derive(image: &[u32], fields: DeriveFields, fresh: &[u8], caller: u32) -> Planned
    ensures { result ≡ planned_of (derive fields.handle fields.retain fields.node_type fields.digest) fresh.now caller image.now }
{
    let handle = fields.handle;
    let digest = fields.digest;
    let parent = named(image, handle);
    let node = free_index(image);
    let kind = derive_kind(fields.retain, node, parent);
    let child = fresh_bytes(fresh);
    let row = child_row(parent, child, fields.node_type, digest, caller);
    let values = node_values(row, inputs_of(digest, handle, child));
    Planned { kind, values }
}

fn plan_extend(image: &[u32], handle: [u8; HANDLE_BYTES], digest: [u8; 48], caller: u32) -> Planned
    ensures { result ≡ planned_of (extend handle digest) [] caller image.now }
{
    let i = named(image, handle);
    let before = bytes_in(image, NODES_AT + NODE_WORDS * i + CUMULATIVE_AT);
    let row = with_caller(extended_row(before, digest), caller);
    let values = node_values(row, inputs_of(digest, handle, [0u8; HANDLE_BYTES]));
    Planned {
        kind: Kind::Extend(i),
        values,
    }
}

fn plan_rotate(image: &[u32], handle: [u8; HANDLE_BYTES], fresh: &[u8], caller: u32) -> Planned
    ensures { result ≡ planned_of (rotate handle) fresh.now caller image.now }
{
    let i = named(image, handle);
    let next = fresh_bytes(fresh);
    let row = with_caller(handle_row(next), caller);
    let values = node_values(row, inputs_of([0u8; 48], handle, next));
    Planned {
        kind: Kind::Rotate(i),
        values,
    }
}

fn plan_destroy(image: &[u32], handle: [u8; HANDLE_BYTES], caller: u32) -> Planned
    ensures { result ≡ planned_of (destroy handle) [] caller image.now }
{
    let freed = freed_by(image, named(image, handle));
    let nodes = freed.nodes;
    let row = with_caller(nodes, caller);
    let values = node_values(row, inputs_of([0u8; 48], handle, [0u8; HANDLE_BYTES]));
    Planned {
        kind: Kind::Destroy(freed.count),
        values,
    }
}

// Nothing to store.
fn plan_nothing() -> Planned
    ensures { result ≡ planned_of malformed [] 0 [] }
{
    let values = no_values();
    Planned {
        kind: Kind::Nothing,
        values,
    }
}

// The kind and the values of a command's work on an image; a malformed command's stores nothing.
#[tactic(auto, unfolding(orders::specs::Told::command_from))]
pub fn plan_order(image: &[u32], order: Order, fresh: &[u8], caller: u32) -> Planned
    ensures { result ≡ planned_of (command_from order) fresh.now caller image.now }
{
    match order {
        Order::Derive(fields) => plan_derive(image, fields, fresh, caller),
        Order::Extend { handle, digest } => plan_extend(image, handle, digest, caller),
        Order::Rotate(handle) => plan_rotate(image, handle, fresh, caller),
        Order::Destroy(handle) => plan_destroy(image, handle, caller),
        Order::Malformed => plan_nothing(),
    }
}
