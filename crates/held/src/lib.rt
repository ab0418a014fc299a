// The entries over a work in lent words: stores left, one store, the answer, the journal entry.
#![tactic(auto)]

ghost use Rattle.std.specs.Prelude.{◌≡◌, ◌+◌, ◌<◌, cond, eqb, length};
ghost use Rattle.layout.specs.Numbers.{told_number};
ghost use Rattle.work.specs.Parts.{storing, lent_work};
ghost use Rattle.work.specs.Recorded.{taking_bytes, entry_result, entry_buffer};
ghost use Rattle.flat.specs.Flat.{work_size, work_of, answering_of};
ghost use Rattle.flat.specs.Forms.{left_in, store_number_in, with_position, store_words, store_hand, store_image_in, answer_number_in, answer_written, answer_buffer_in, entry_number_in, entry_written, entry_buffer_in};

use crate::reading::{answer_in, answer_len_in, inputs_in, kind_in, node_in, position_in};
use flat::WORK_WORDS;
use flat::words::{
    ANSWER_IN, JOURNEY_IN, NODE_IN, POSITION_HIGH_IN, POSITION_IN, REGISTER_IN, SECRET_IN,
    WRONG_WORK, words_of,
};
use layout::refusals::Refusal;
use layout::{INPUT_BYTES, REGISTER_WORDS};
use table::Prepared;
use work::Work;
use work::entry::take;
use work::lent::Lent;

mod reading;

// The parts of the work that the words are, where they stand.
fn lent(work: &[u32]) -> Lent<'_>
    requires { length work.now ≡ work_size }
    ensures { lent_work result ≡ storing (work_of work.now).kind (work_of work.now).position (work_of work.now).answer_len (work_of work.now).register (work_of work.now).journey (work_of work.now).node (work_of work.now).secret }
{
    Lent {
        kind: kind_in(work),
        position: position_in(work),
        answer_len: answer_len_in(work),
        words: Prepared {
            register: &work[REGISTER_IN..JOURNEY_IN],
            journey: &work[JOURNEY_IN..NODE_IN],
            node: &work[NODE_IN..SECRET_IN],
            secret: &work[SECRET_IN..ANSWER_IN],
        },
    }
}

// Stores left; of a buffer of another length 0.
pub fn left(work: &[u32]) -> usize
    ensures { result ≡ left_in work.now }
{
    if work.len() != WORK_WORDS {
        return 0;
    }
    lent(work).left()
}

// Moves the position on by one: only its two words change.
fn move_on(work: &mut [u32])
    requires work_len { length work.old ≡ work_size }
    requires work_bound { (work_of work.old).position < 4294967296 }
    ensures { work.new ≡ with_position work.old ((work_of work.old).position + 1) }
{
    let [low, high] = words_of(position_in(work) + 1);
    work[POSITION_IN] = low;
    work[POSITION_HIGH_IN] = high;
}

// A number and not a Result, as in `answer` and `entry`: the C interface (`waggleloft_store`, `waggleloft_answer`,
// `waggleloft_entry`) hands it on.
// One store: of the words only the position's two change. Refused, with nothing stored and every word as it was: 28, a
// buffer of another length; then as the entry.
pub fn store(work: &mut [u32], image: &mut [u32]) -> u32
    ensures value { result ≡ store_number_in work.old image.old }
    ensures work_after { work.new ≡ store_words work.old image.old }
    ensures work_after_2 { work_of work.new ≡ store_hand work.old image.old }
    ensures image_after { image.new ≡ store_image_in work.old image.old }
{
    if work.len() != WORK_WORDS {
        return WRONG_WORK;
    }
    if let Err(refusal) = lent(work).store(image) {
        return u32::from(refusal);
    }
    move_on(work);
    0
}

// The number of a taking, and where nothing is refused its length.
fn hand_on(taken: Result<usize, Refusal>, written: &mut usize) -> u32
    ensures value { result ≡ told_number taken }
    ensures written_after { written.new ≡ cond (eqb (told_number taken) 0) (taking_bytes taken) written.old }
{
    match taken {
        Ok(length) => {
            *written = length;
            0
        }
        Err(refusal) => u32::from(refusal),
    }
}

// What an answer's taking asks of the words: of the prepared ones the node's alone, and no input.
fn answering(work: &[u32]) -> Work
    requires { length work.now ≡ work_size }
    ensures { result ≡ answering_of (work_of work.now) }
{
    let kind = kind_in(work);
    let node = node_in(work);
    let answer = answer_in(work);
    Work {
        kind,
        position: position_in(work),
        register: [0u32; REGISTER_WORDS],
        journey: [0u32; REGISTER_WORDS],
        node,
        secret: [0u32; REGISTER_WORDS],
        answer,
        answer_len: answer_len_in(work),
        inputs: [0u8; INPUT_BYTES],
    }
}

// The answer into the front of the buffer, and its length. Refused, with nothing written: 28, a work of
// another length; then as the entry.
pub fn answer(work: &[u32], buffer: &mut [u8], written: &mut usize) -> u32
    ensures value { result ≡ answer_number_in work.now buffer.old }
    ensures written_after { written.new ≡ answer_written work.now buffer.old written.old }
    ensures buffer_after { buffer.new ≡ answer_buffer_in work.now buffer.old }
{
    if work.len() != WORK_WORDS {
        return WRONG_WORK;
    }
    hand_on(answering(work).answer(buffer), written)
}

// The journal entry of the work that the words are.
fn entry_from(work: &[u32], buffer: &mut [u8]) -> Result<usize, Refusal>
    requires { length work.now ≡ work_size }
    ensures value { result ≡ entry_result (work_of work.now) buffer.old }
    ensures buffer_after { buffer.new ≡ entry_buffer (work_of work.now) buffer.old }
{
    take(&lent(work), inputs_in(work), buffer)
}

// The journal entry into the front of the buffer, and its length. Refused, with nothing written: 28, a work
// of another length; then as the entry.
pub fn entry(work: &[u32], buffer: &mut [u8], written: &mut usize) -> u32
    ensures value { result ≡ entry_number_in work.now buffer.old }
    ensures written_after { written.new ≡ entry_written work.now buffer.old written.old }
    ensures buffer_after { buffer.new ≡ entry_buffer_in work.now buffer.old }
{
    if work.len() != WORK_WORDS {
        return WRONG_WORK;
    }
    hand_on(entry_from(work, buffer), written)
}
