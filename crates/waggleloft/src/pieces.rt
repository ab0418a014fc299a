// The digest of bytes that come in pieces, for C: begin, feed and finish over a lent state, and its
// size.
ghost use Rattle.std.specs.Prelude.{◌≡◌, length};
ghost use Rattle.running_bytes.specs.Coding.{state_size};
ghost use Rattle.running_bytes.specs.Entries.{begin_number_in, begin_bytes, feed_number_in, feed_bytes, finish_number_in, finish_buffer};

use running_bytes::coding::STATE_BYTES;

#[unsafe(no_mangle)]
pub extern "C" fn waggleloft_sha384_state_bytes() -> usize
    ensures { result ≡ state_size }
{
    STATE_BYTES
}

#[unsafe(no_mangle)]
pub extern "C" fn waggleloft_sha384_begin(state: &mut [u8]) -> u32
    ensures value { result ≡ begin_number_in state.old }
    ensures state_after { state.new ≡ begin_bytes state.old }
{
    running_bytes::begin(state)
}

#[unsafe(no_mangle)]
pub extern "C" fn waggleloft_sha384_feed(state: &mut [u8], slice: &[u8]) -> u32
    ensures value { result ≡ feed_number_in state.old slice.now }
    ensures state_after { state.new ≡ feed_bytes state.old slice.now }
{
    running_bytes::feed(state, slice)
}

#[unsafe(no_mangle)]
pub extern "C" fn waggleloft_sha384_finish(state: &[u8], buffer: &mut [u8]) -> u32
    ensures value { result ≡ finish_number_in state.now (length buffer.old) }
    ensures buffer_after { buffer.new ≡ finish_buffer state.now buffer.old }
{
    running_bytes::finish(state, buffer)
}
