// Children, and the nodes that a destroy frees.
ghost use Rattle.std.specs.Prelude.{◌≡◌, not, ◌||◌, ◌++◌, ◌-◌, eqb, length};
ghost use Rattle.layout.specs.Sizes.{node_count, node_words};
ghost use Rattle.layout.specs.Words.{zeros};
ghost use Rattle.tree.specs.Tree.{is_child_of, childless, childless_but, goes_too, freed_by};
ghost use Rattle.tree.specs.Nodes.{tree_in};

use crate::node::Node;
use layout::{NODE_WORDS, NODES};

fn is_child_of(node: &Node, p: usize) -> bool
    ensures { result ≡ is_child_of p (tree_in node.now.image.now node.now.index) }
{
    node.is_used() && node.parent() == p
}

// Whether a node is b or no child of p.
fn is_other(node: &Node, b: usize, p: usize) -> bool
    ensures { result ≡ (eqb node.now.index b || not (is_child_of p (tree_in node.now.image.now node.now.index))) }
{
    node.index == b || !is_child_of(node, p)
}

// Whether no node but b is a child of p.
fn childless_but(image: &[u32], b: usize, p: usize) -> bool
    ensures { result ≡ childless_but node_count (tree_in image.now) b p }
{
    for j in 0..NODES {
        let node = Node { image, index: j };
        if !is_other(&node, b, p) {
            return false;
        }
    }
    true
}

// Whether no node is a child of node i: none but the one past the last.
pub fn childless(image: &[u32], i: usize) -> bool
    ensures { result ≡ childless node_count (tree_in image.now) i }
{
    childless_but(image, NODES, i)
}

// Whether the parent p of a freed node b goes too.
fn goes_too(image: &[u32], b: usize, p: usize) -> bool
    ensures { result ≡ goes_too node_count (tree_in image.now) b p }
{
    if NODES <= p {
        return false;
    }
    let parent = Node { image, index: p };
    if parent.is_root() {
        return false;
    }
    if !parent.is_retired() {
        return false;
    }
    childless_but(image, b, p)
}

// The freed nodes' indices, upwards, with zeros behind them, and how many they are. There is room: a node
// has more words than there are nodes. An array with its count stays: the project has no heap, and a work
// stores the whole array.
#[derive(Clone, Copy)]
pub struct Freed {
    pub count: usize,
    pub nodes: [u32; NODE_WORDS],
}

// What a destroy of node i frees.
pub fn freed_by(image: &[u32], i: usize) -> Freed
    ensures count_value { result.count ≡ length (freed_by node_count (tree_in image.now) i) }
    ensures nodes_value { result.nodes ≡ freed_by node_count (tree_in image.now) i
        ++ zeros (node_words - length (freed_by node_count (tree_in image.now) i)) }
{
    let mut nodes = [0u32; NODE_WORDS];
    let mut count = 0;
    if NODES <= i {
        return Freed { count, nodes };
    }
    let mut at = i;
    for _ in 1..NODES {
        nodes[count] = at as u32;
        count += 1;
        let p = Node { image, index: at }.parent();
        if !goes_too(image, at, p) {
            return Freed { count, nodes };
        }
        at = p;
    }
    Freed { count, nodes }
}
