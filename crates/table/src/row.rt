// A row of the store table, gone through field by field for one of its stores.
ghost use Rattle.std.specs.Prelude.{◌≡◌, ℕ, ◌+◌, ◌≤◌, ◌<◌, true, ltb, get_or, List, [], ◌∷◌};
ghost use Rattle.std.specs.Option.{ForSome};
ghost use Rattle.layout.specs.Below.{all_below};
ghost use Rattle.layout.specs.Sizes.{node_count, node_words, node_at, image_words};

use crate::{NO_STORE, Put};
use layout::{NODE_WORDS, NODES_AT};
use packing::word;

// How many stores of the fields to come are before the one that is looked for; once its field is passed, that store.
#[derive(Clone, Copy)]
pub(crate) struct Row {
    before: usize,
    found: Option<Put>,
    ghost inside: { ForSome found (λ p. p.address < image_words) },
}

// In line, so that a field that is passed costs a comparison.
impl Row {
    ghost use Rattle.table.specs.declared.Put.{Put};
    ghost use Rattle.table.specs.Table.{Run, one, fill, copy, copy_from, clear, put_from, sought};

    // Before the first field.
    #[inline(always)]
    pub(crate) fn new(k: usize) -> Row
        ensures { (rest : List Run) → sought result rest ≡ put_from 0 rest k }
    {
        Row {
            before: k,
            found: None,
        }
    }

    // Past a field of so many stores, which `store` tells by their numbers in it.
    #[inline(always)]
    fn field<F: FnOnce(usize) -> Put>(self, count: usize, store: F) -> Row
        requires may_call { (i : ℕ) → i < count → F.pre store i }
        requires within { (i : ℕ) (p : Put) → i < count → F.post store i p → p.address < image_words }
        ensures { (g : ℕ → Put) → ((i : ℕ) (p : Put) → i < count → F.post store i p → p ≡ g i) → (rest : List Run) → sought result rest ≡ sought self (record { count = count; store = g } ∷ rest) }
    {
        if self.found.is_some() {
            return self;
        }
        if self.before < count {
            return Row {
                before: 0,
                found: Some(store(self.before)),
            };
        }
        Row {
            before: self.before - count,
            found: None,
        }
    }

    // One word.
    #[inline(always)]
    pub(crate) fn one(self, address: usize, value: u32) -> Row
        requires { address < image_words }
        ensures { (rest : List Run) → sought result rest ≡ sought self (one address value ∷ rest) }
    {
        self.field(1, |_| Put { address, value })
    }

    // One value in so many words from `at` on.
    #[inline(always)]
    pub(crate) fn fill(self, at: usize, count: usize, value: u32) -> Row
        requires { at + count ≤ image_words }
        ensures { (rest : List Run) → sought result rest ≡ sought self (fill at count value ∷ rest) }
    {
        self.field(
            count,
            |i| Put {
                address: at + i,
                value,
            },
        )
    }

    // The first words of a slice, as many as `count`, from `at` on.
    #[inline(always)]
    pub(crate) fn copy(self, at: usize, count: usize, words: &[u32]) -> Row
        requires { at + count ≤ image_words }
        ensures { (rest : List Run) → sought result rest ≡ sought self (copy at count words.now ∷ rest) }
    {
        self.field(
            count,
            |i| Put {
                address: at + i,
                value: word(words, i),
            },
        )
    }

    // Words of node i, as many as `count` from its word `from` on.
    #[inline(always)]
    pub(crate) fn part(self, i: usize, from: usize, count: usize, node: &[u32]) -> Row
        requires i_lt_node_count { i < node_count }
        requires count_bound { from + count ≤ node_words }
        ensures { (rest : List Run) → sought result rest ≡ sought self (copy_from (node_at i + from) count node.now from ∷ rest) }
    {
        self.field(
            count,
            |j| Put {
                address: NODES_AT + NODE_WORDS * i + from + j,
                value: word(node, from + j),
            },
        )
    }

    // The first nodes of a list of indices, one after another, all zero.
    #[inline(always)]
    pub(crate) fn clear(self, count: usize, freed: &[u32]) -> Row
        requires count_le_node_count { count ≤ node_count }
        requires freed_nodes { all_below count (λ j. ltb (get_or freed.now j 0) node_count) ≡ true }
        ensures { (rest : List Run) → sought result rest ≡ sought self (clear count freed.now ∷ rest) }
    {
        self.field(
            NODE_WORDS * count,
            |i| Put {
                address: NODES_AT
                    + NODE_WORDS * word(freed, i / NODE_WORDS) as usize
                    + i % NODE_WORDS,
                value: 0,
            },
        )
    }

    // The store; past the row's last, one that nobody makes.
    #[inline(always)]
    pub(crate) fn put(self) -> Put
        ensures value { result ≡ sought self [] }
        ensures address_lt_image_words { result.address < image_words }
    {
        self.found.unwrap_or(NO_STORE)
    }
}
