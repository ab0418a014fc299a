// The running digest over a state that the caller holds as bytes: begin, feed and finish on a lent
// buffer. Any bytes are a state. Each hands a number to C, so a refusal is its number here, and no
// `Result`.
#![tactic(auto)]

ghost use Rattle.std.specs.Prelude.{◌≡◌, length};
ghost use Rattle.running_bytes.specs.Entries.{begin_number_in, begin_bytes, feed_number_in, feed_bytes, finish_number_in, finish_buffer};

use crate::coding::{STATE_BYTES, put_state, state_of};

pub mod coding;

// A buffer that is not as long as a state.
pub const WRONG_STATE: u32 = 28;

// Begins in the lent bytes: 0. Refused, with nothing written: 28, a buffer of another length.
pub fn begin(state: &mut [u8]) -> u32
    ensures value { result ≡ begin_number_in state.old }
    ensures state_after { state.new ≡ begin_bytes state.old }
{
    if state.len() != STATE_BYTES {
        return WRONG_STATE;
    }
    put_state(&running::begin(), state);
    0
}

// Feeds a slice to the state that the bytes are: 0. Refused, with nothing written: 28, a buffer of
// another length; then as `running`'s feed.
pub fn feed(state: &mut [u8], slice: &[u8]) -> u32
    ensures value { result ≡ feed_number_in state.old slice.now }
    ensures state_after { state.new ≡ feed_bytes state.old slice.now }
{
    if state.len() != STATE_BYTES {
        return WRONG_STATE;
    }
    let mut held = state_of(state);
    match held.feed(slice) {
        Ok(()) => {
            put_state(&held, state);
            0
        }
        Err(error) => u32::from(error),
    }
}

// The digest of the state that the bytes are, into the first 48 bytes of the buffer: 0. Refused, with
// nothing written: 28, a state of another length; 27, as `running`'s finish; 8, a buffer shorter than 48.
pub fn finish(state: &[u8], buffer: &mut [u8]) -> u32
    ensures value { result ≡ finish_number_in state.now (length buffer.old) }
    ensures buffer_after { buffer.new ≡ finish_buffer state.now buffer.old }
{
    if state.len() != STATE_BYTES {
        return WRONG_STATE;
    }
    let digest = match state_of(state).finish() {
        Ok(digest) => digest,
        Err(error) => return u32::from(error),
    };
    if buffer.len() < 48 {
        return 8;
    }
    buffer[..48].copy_from_slice(&digest);
    0
}
