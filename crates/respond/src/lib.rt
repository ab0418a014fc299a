// The small program of document 01 as a function: from the bytes that it reads to those it writes.
#![tactic(auto)]

mod run;

ghost use Rattle.std.specs.Prelude.{◌≡◌, true, Ok, ◌++◌, ◌+◌, ◌≤◌, drop};
ghost use Rattle.layout.specs.Sizes.{answer_max};
ghost use Rattle.layout.specs.Words.{bytes4};
ghost use Rattle.work.specs.Entries.{finished};
ghost use Rattle.making.specs.Run.{all_stores};
ghost use Rattle.respond.specs.Program.{answer_bytes, output_of, program_output, response_of};

use crate::run::{cold_image, open};
use layout::bytes::Bytes;
use layout::{ANSWER_MAX, IMAGE_WORDS};
use making::run::run_all;
use packing::four;
use work::Work;

// The bytes of an input that are used.
pub const INPUT_MAX: usize = 65000;

// The bytes of the result.
const RESULT_LEN: usize = 4;

// The result and the longest answer.
pub const RESPONSE_MAX: usize = RESULT_LEN + ANSWER_MAX;

// A response whose answer of `n` bytes is in its place: the result goes in front.
fn with_result(number: u32, n: usize, space: [u8; RESPONSE_MAX]) -> Bytes<RESPONSE_MAX>
    requires { n ≤ answer_max }
    ensures { result ≡ record { len = 4 + n; bytes = bytes4 number ++ drop 4 space } }
{
    let result = four(number);
    let mut out = space;
    out[..RESULT_LEN].copy_from_slice(&result);
    Bytes {
        bytes: out,
        len: RESULT_LEN + n,
    }
}

// Makes all stores of a work at an image, and takes the answer.
fn answered(work: Work, image: [u32; IMAGE_WORDS]) -> Bytes<RESPONSE_MAX>
    requires { finished (all_stores work image).work ≡ true }
    ensures { result ≡ response_of (bytes4 0 ++ answer_bytes work (Ok tt)) }
{
    let mut words = image;
    let done = run_all(work, &mut words);
    let mut space = [0u8; RESPONSE_MAX];
    let n = done.answer(&mut space[RESULT_LEN..]).unwrap();
    with_result(0, n, space)
}

// Opens the request of an input of which all bytes are used, and answers it.
fn respond_to(input: &[u8]) -> Bytes<RESPONSE_MAX>
    ensures { result ≡ response_of (output_of input.now) }
{
    let image = cold_image();
    let opened = open(&image, input);
    let Ok(()) = opened.status else {
        return with_result(opened.number(), 0, [0u8; RESPONSE_MAX]);
    };
    answered(opened.work, image)
}

// What the program writes for the bytes on its standard input, however many.
pub fn respond(input: &[u8]) -> Bytes<RESPONSE_MAX>
    ensures { result ≡ response_of (program_output input.now) }
{
    if INPUT_MAX < input.len() {
        return respond_to(&input[..INPUT_MAX]);
    }
    respond_to(input)
}
