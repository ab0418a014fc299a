// The work that any words are: its kind, position, node, answer, answer's length and inputs. What is past the
// end is 0.
ghost use Rattle.std.specs.Prelude.{◌≡◌, ◌<◌, length};
ghost use Rattle.flat.specs.Flat.{work_size, joined_of, long_at, position_of, bytes_at, work_of};

use flat::words::{
    ANSWER_IN, FIRST_IN, INPUTS_IN, LENGTH_IN, NODE_IN, POSITION_IN, SECOND_IN, SECRET_IN,
};
use layout::{ANSWER_MAX, INPUT_BYTES, NODE_WORDS};
use packing::{byte_of, word, word_after};
use table::Kind;
use table::coding::{Coded, is_kind};

fn joined(low: u32, high: u32) -> usize
    ensures { result ≡ joined_of low high }
{
    (low as usize) + 4294967296 * (high as usize)
}

// The number of the two words from an index on.
fn long_in(words: &[u32], at: usize) -> usize
    requires { at < work_size }
    ensures { result ≡ long_at words.now at }
{
    joined(word(words, at), word(words, at + 1))
}

// A number that is no kind's is past its last store.
fn position_of(number: u32, position: usize) -> usize
    ensures { result ≡ position_of number position }
{
    if is_kind(number) {
        return position;
    }
    1
}

pub(crate) fn kind_in(words: &[u32]) -> Kind
    ensures { result ≡ (work_of words.now).kind }
{
    Kind::from(Coded {
        number: word(words, 0),
        first: long_in(words, FIRST_IN),
        second: long_in(words, SECOND_IN),
    })
}

pub(crate) fn position_in(words: &[u32]) -> usize
    ensures { result ≡ (work_of words.now).position }
{
    position_of(word(words, 0), long_in(words, POSITION_IN))
}

pub(crate) fn answer_len_in(words: &[u32]) -> usize
    ensures { result ≡ (work_of words.now).answer_len }
{
    long_in(words, LENGTH_IN)
}

pub(crate) fn node_in(words: &[u32]) -> [u32; NODE_WORDS]
    requires { length words.now ≡ work_size }
    ensures { result ≡ (work_of words.now).node }
{
    let mut out = [0u32; NODE_WORDS];
    out.copy_from_slice(&words[NODE_IN..SECRET_IN]);
    out
}

// N bytes of the words from an index on.
fn bytes_in<const N: usize>(words: &[u32], at: usize) -> [u8; N]
    ensures { result ≡ bytes_at N words.now at }
{
    std::array::from_fn(|k| byte_of(word_after(words, at, k / 4), k % 4))
}

pub(crate) fn answer_in(words: &[u32]) -> [u8; ANSWER_MAX]
    ensures { result ≡ (work_of words.now).answer }
{
    bytes_in(words, ANSWER_IN)
}

pub(crate) fn inputs_in(words: &[u32]) -> [u8; INPUT_BYTES]
    ensures { result ≡ (work_of words.now).inputs }
{
    bytes_in(words, INPUTS_IN)
}
