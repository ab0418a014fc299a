// One block, and all whole blocks of a byte slice (FIPS 180-4, 6.4.2 and 5.2.2).
//
// The schedule is a ring of sixteen words: W_t takes the place of W_(t-16). `k` is the table of
// the eighty round constants, read by round index.
ghost use Rattle.std.specs.Prelude.{◌≡◌, ◌+◌, ◌*◌, ◌/◌, ◌<◌, ◌≤◌, length, slice_set};
ghost use Rattle.sha_block.specs.Rounds.{round_of, turns};
ghost use Rattle.sha_block.specs.Schedule.{at, schedule, ring_next, ring_after, ring_word};
ghost use Rattle.sha_block.specs.Blocks.{word_at, block_words, block_of, absorbed};

use crate::rounds::{next, round, sum};
use crate::state::State;

fn word_at(s: &[u8], i: usize) -> u64
    requires { i + 8 ≤ length s.now }
    ensures { result ≡ word_at s.now i }
{
    u64::from_be_bytes([
        s[i],
        s[i + 1],
        s[i + 2],
        s[i + 3],
        s[i + 4],
        s[i + 5],
        s[i + 6],
        s[i + 7],
    ])
}

// Round t below 16, at the word t of the block that starts at the byte `from`; the ring takes it up.
fn first_round(
    k: &[u64; 80],
    w: &mut [u64; 16],
    t: usize,
    s: State,
    bytes: &[u8],
    from: usize,
) -> State
    requires { (t < 16) × (from + 128 ≤ length bytes.now) }
    ensures value { result ≡ round_of s (at k.now t) (word_at bytes.now (from + t * 8)) }
    ensures w_after { w.new ≡ slice_set w.old t (word_at bytes.now (from + t * 8)) }
{
    let x = word_at(bytes, from + t * 8);
    w[t] = x;
    round(s, k[t], x)
}

// Rounds 0 to 15, at the sixteen words of the block that starts at the byte `from`; they fill the ring.
// They are written out as `sixteen_rounds` are.
fn first_rounds(k: &[u64; 80], w: &mut [u64; 16], h: State, bytes: &[u8], from: usize) -> State
    requires { (length w.old ≡ 16) × (from + 128 ≤ length bytes.now) }
    ensures value { result ≡ turns (at k.now) (at (schedule 64 (block_words bytes.now from 16))) 16 h }
    ensures w_after { w.new ≡ block_words bytes.now from 16 }
{
    let mut s = first_round(k, w, 0, h, bytes, from);
    s = first_round(k, w, 1, s, bytes, from);
    s = first_round(k, w, 2, s, bytes, from);
    s = first_round(k, w, 3, s, bytes, from);
    s = first_round(k, w, 4, s, bytes, from);
    s = first_round(k, w, 5, s, bytes, from);
    s = first_round(k, w, 6, s, bytes, from);
    s = first_round(k, w, 7, s, bytes, from);
    s = first_round(k, w, 8, s, bytes, from);
    s = first_round(k, w, 9, s, bytes, from);
    s = first_round(k, w, 10, s, bytes, from);
    s = first_round(k, w, 11, s, bytes, from);
    s = first_round(k, w, 12, s, bytes, from);
    s = first_round(k, w, 13, s, bytes, from);
    s = first_round(k, w, 14, s, bytes, from);
    first_round(k, w, 15, s, bytes, from)
}

// Round t + i, where t is a multiple of 16: W_(t+i) takes the place i of the ring.
fn ring_round(k: &[u64; 80], w: &mut [u64; 16], t: usize, i: usize, s: State) -> State
    requires { (i < 16) × (t + 16 ≤ 80) }
    ensures value { result ≡ round_of s (at k.now (t + i)) (ring_next w.old i) }
    ensures w_after { w.new ≡ slice_set w.old i (ring_next w.old i) }
{
    let x = next(w[(i + 14) % 16], w[(i + 9) % 16], w[(i + 1) % 16], w[i]);
    w[i] = x;
    round(s, k[t + i], x)
}

// Sixteen rounds from t on. They are written out, so that the compiler knows each place of the ring
// and each name of the working variables.
fn sixteen_rounds(k: &[u64; 80], w: &mut [u64; 16], t: usize, h: State) -> State
    requires { t + 16 ≤ 80 }
    ensures value { result ≡ turns (λ j. at k.now (t + j)) (ring_word w.old) 16 h }
    ensures w_after { w.new ≡ ring_after 16 w.old }
{
    let mut s = ring_round(k, w, t, 0, h);
    s = ring_round(k, w, t, 1, s);
    s = ring_round(k, w, t, 2, s);
    s = ring_round(k, w, t, 3, s);
    s = ring_round(k, w, t, 4, s);
    s = ring_round(k, w, t, 5, s);
    s = ring_round(k, w, t, 6, s);
    s = ring_round(k, w, t, 7, s);
    s = ring_round(k, w, t, 8, s);
    s = ring_round(k, w, t, 9, s);
    s = ring_round(k, w, t, 10, s);
    s = ring_round(k, w, t, 11, s);
    s = ring_round(k, w, t, 12, s);
    s = ring_round(k, w, t, 13, s);
    s = ring_round(k, w, t, 14, s);
    ring_round(k, w, t, 15, s)
}

// Rounds 16 to 79, at the words that the ring takes up.
fn ring_rounds(k: &[u64; 80], w: &mut [u64; 16], h: State) -> State
    requires { length w.old ≡ 16 }
    ensures { result ≡ turns (λ j. at k.now (16 + j)) (λ j. at (schedule 64 w.old) (16 + j)) 64 h }
{
    let mut s = h;
    for i in 1..5 {
        s = sixteen_rounds(k, w, 16 * i, s);
    }
    s
}

// What the block that starts at the byte `from` makes of a hash value.
fn block(k: &[u64; 80], h: State, bytes: &[u8], from: usize) -> State
    requires { from + 128 ≤ length bytes.now }
    ensures { result ≡ block_of k.now h (block_words bytes.now from 16) }
{
    let mut w = [0u64; 16];
    let s = first_rounds(k, &mut w, h, bytes, from);
    sum(h, ring_rounds(k, &mut w, s))
}

// Runs all whole blocks of a byte slice over the hash value, the words H_0 to H_7; bytes past the last
// whole block count for nothing. The caller lends it, so that no copy of it goes in and out.
pub fn absorb(k: &[u64; 80], h: &mut [u64; 8], bytes: &[u8])
    ensures { h.new ≡ absorbed k.now h.old bytes.now (length bytes.now / 128) }
{
    for q in 0..bytes.len() / 128 {
        *h = <[u64; 8]>::from(block(k, State::from(*h), bytes, q * 128));
    }
}
