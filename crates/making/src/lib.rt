// Works as an opening makes them, and all stores of a work (`run`).
#![tactic(auto)]

pub mod run;

ghost use Rattle.std.specs.Prelude.{◌≡◌, []};
ghost use Rattle.making.specs.Made.{no_values, no_answer, made_work, plain_work, refused_work};

use layout::bytes::Bytes;
use layout::{ANSWER_MAX, INPUT_BYTES, NODE_WORDS, REGISTER_WORDS};
use table::Kind;
use work::Work;

// The words that a work will store and the inputs that its entry tells, as its fields of these names.
#[derive(Clone, Copy)]
pub struct Values {
    pub register: [u32; REGISTER_WORDS],
    pub journey: [u32; REGISTER_WORDS],
    pub node: [u32; NODE_WORDS],
    pub secret: [u32; REGISTER_WORDS],
    pub inputs: [u8; INPUT_BYTES],
}

// No word to store, and no input to tell.
pub fn no_values() -> Values
    ensures { result ≡ no_values }
{
    Values {
        register: [0u32; REGISTER_WORDS],
        journey: [0u32; REGISTER_WORDS],
        node: [0u32; NODE_WORDS],
        secret: [0u32; REGISTER_WORDS],
        inputs: [0u8; INPUT_BYTES],
    }
}

// An answer of no bytes.
pub fn no_answer() -> Bytes<ANSWER_MAX>
    ensures { result ≡ no_answer }
{
    Bytes {
        bytes: [0u8; ANSWER_MAX],
        len: 0,
    }
}

// A work of which no store is made.
pub fn new_work(kind: Kind, values: Values, answer: Bytes<ANSWER_MAX>) -> Work
    ensures { result ≡ made_work kind 0 values answer }
{
    let register = values.register;
    let journey = values.journey;
    let node = values.node;
    let secret = values.secret;
    let inputs = values.inputs;
    let bytes = answer.bytes;
    Work {
        kind,
        position: 0,
        register,
        journey,
        node,
        secret,
        answer: bytes,
        answer_len: answer.len,
        inputs,
    }
}

// A work that stores no prepared word and has no answer.
pub fn bare_work(kind: Kind) -> Work
    ensures { result ≡ plain_work kind [] }
{
    new_work(kind, no_values(), no_answer())
}

// The work beside a refusal: nothing to store, and a position past that.
pub fn refused_work() -> Work
    ensures { result ≡ refused_work }
{
    let mut work = bare_work(Kind::Nothing);
    work.position = 1;
    work
}
