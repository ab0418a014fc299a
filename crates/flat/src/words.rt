// A work as the words of a lent buffer.
//
// Words 0 to 8 are the kind's number and, of two words each, low and high, the kind's two indices, the
// position and the answer's length; then register, journey, node and secret; then the answer and the
// inputs, four bytes to a word, the first lowest.
ghost use Rattle.std.specs.Prelude.{◌≡◌, [], ◌∷◌, length, get_or};
ghost use Rattle.work.specs.Parts.{standing};
ghost use Rattle.flat.specs.Flat.{work_size, low_of, high_of, head_of, row_of, work_words, work_of};

use layout::{ANSWER_MAX, INPUT_BYTES, NODE_WORDS, REGISTER_WORDS};
use packing::word;
use slices::little_endian::read32;
use table::Kind;
use table::coding::Coded;
use work::Work;

pub const FIRST_IN: usize = 1;

pub const SECOND_IN: usize = 3;

pub const POSITION_IN: usize = 5;

pub const POSITION_HIGH_IN: usize = 6;

pub const LENGTH_IN: usize = 7;

pub const REGISTER_IN: usize = 9;

pub const JOURNEY_IN: usize = REGISTER_IN + REGISTER_WORDS;

pub const NODE_IN: usize = JOURNEY_IN + REGISTER_WORDS;

pub const SECRET_IN: usize = NODE_IN + NODE_WORDS;

pub const ANSWER_IN: usize = SECRET_IN + REGISTER_WORDS;

pub const INPUTS_IN: usize = ANSWER_IN + ANSWER_MAX / 4;

pub const WORK_WORDS: usize = INPUTS_IN + INPUT_BYTES / 4;

// The number of a work buffer of another length.
pub const WRONG_WORK: u32 = 28;

// A number as two words, low and high.
pub fn words_of(n: usize) -> [u32; 2]
    ensures { result ≡ low_of n ∷ high_of n ∷ [] }
{
    [(n % 0x100000000) as u32, (n >> 32) as u32]
}

// The first nine words: the kind's number, and the two words of each number after it.
fn head_of(w: &Work) -> [u32; REGISTER_IN]
    ensures { result ≡ head_of (standing w.now.kind w.now.position w.now.answer_len []) }
{
    let coded = Coded::from(w.kind);
    let [first, first_high] = words_of(coded.first);
    let [second, second_high] = words_of(coded.second);
    let [position, position_high] = words_of(w.position);
    let [length, length_high] = words_of(w.answer_len);
    [
        coded.number,
        first,
        first_high,
        second,
        second_high,
        position,
        position_high,
        length,
        length_high,
    ]
}

// Word k of a head and a work's other parts, one after another.
fn row_word(head: &[u32; REGISTER_IN], w: &Work, k: usize) -> u32
    ensures { result ≡ get_or (row_of head.now w.now.register w.now.journey w.now.node w.now.secret w.now.answer w.now.inputs) k 0 }
{
    if k < REGISTER_IN {
        return word(head, k);
    }
    if k < JOURNEY_IN {
        return word(&w.register, k - REGISTER_IN);
    }
    if k < NODE_IN {
        return word(&w.journey, k - JOURNEY_IN);
    }
    if k < SECRET_IN {
        return word(&w.node, k - NODE_IN);
    }
    if k < ANSWER_IN {
        return word(&w.secret, k - SECRET_IN);
    }
    if k < INPUTS_IN {
        return read32(&w.answer, 4 * (k - ANSWER_IN));
    }
    if k < WORK_WORDS {
        return read32(&w.inputs, 4 * (k - INPUTS_IN));
    }
    0
}

pub(crate) fn write_work(w: Work, out: &mut [u32])
    requires { length out.old ≡ work_size }
    ensures out_after { out.new ≡ work_words w }
    ensures out_after_2 { work_of out.new ≡ w }
{
    let head = head_of(&w);
    for k in 0..WORK_WORDS {
        out[k] = row_word(&head, &w, k);
    }
}
