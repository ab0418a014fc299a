// A running state as bytes: total, number waiting, buffer, hash value; numbers are little endian.
ghost use Rattle.std.specs.Prelude.{◌≡◌, length};
ghost use Rattle.running_bytes.specs.Coding.{state_size, hash_in, longs_at, state_bytes, state_at};

use running::Running;
use slices::little_endian::read64;

// Where the parts stand, and where they end.
const TOTAL_IN: usize = 0;

const WAITING_IN: usize = 8;

const BUFFER_IN: usize = 16;

const HASH_IN: usize = 144;

pub const STATE_BYTES: usize = 208;

// The words of the hash value.
fn hash_in(state: &[u8]) -> [u64; 8]
    ensures { result ≡ longs_at 8 state.now hash_in }
{
    std::array::from_fn(|k| read64(state, HASH_IN + 8 * k))
}

// The state that the bytes are.
pub(crate) fn state_of(state: &[u8]) -> Running
    requires { length state.now ≡ state_size }
    ensures { result ≡ state_at state.now }
{
    let mut buffer = [0u8; 128];
    buffer.copy_from_slice(&state[BUFFER_IN..HASH_IN]);
    let hash = hash_in(state);
    Running {
        total: read64(state, TOTAL_IN),
        waiting: read64(state, WAITING_IN),
        buffer,
        hash,
    }
}

// Writes a state.
pub(crate) fn put_state(state: &Running, out: &mut [u8])
    requires { length out.old ≡ state_size }
    ensures { out.new ≡ state_bytes state.now }
{
    let words = state.hash.map(u64::to_le_bytes);
    out[TOTAL_IN..WAITING_IN].copy_from_slice(&state.total.to_le_bytes());
    out[WAITING_IN..BUFFER_IN].copy_from_slice(&state.waiting.to_le_bytes());
    out[BUFFER_IN..HASH_IN].copy_from_slice(&state.buffer);
    out[HASH_IN..STATE_BYTES].copy_from_slice(words.as_flattened());
}
