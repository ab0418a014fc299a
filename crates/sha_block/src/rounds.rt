// One round, the next word of the schedule, and the sum that ends a block (FIPS 180-4, 6.4.2).
// Every sum wraps at 64 bits.
ghost use Rattle.std.specs.Prelude.{◌≡◌};
ghost use Rattle.sha_block.specs.Rounds.{T1, T2, round_of, next_hash};
ghost use Rattle.sha_block.specs.Schedule.{next_of};

use crate::state::State;
use crate::words::{big0, big1, choose, majority, small0, small1};

fn temp1(e: u64, f: u64, g: u64, h: u64, k: u64, w: u64) -> u64
    ensures { result ≡ T1 e f g h k w }
{
    let x = h.wrapping_add(big1(e));
    let y = choose(e, f, g).wrapping_add(k);
    x.wrapping_add(y).wrapping_add(w)
}

fn temp2(a: u64, b: u64, c: u64) -> u64
    ensures { result ≡ T2 a b c }
{
    big0(a).wrapping_add(majority(a, b, c))
}

pub(crate) fn round(s: State, k: u64, w: u64) -> State
    ensures { result ≡ round_of s k w }
{
    let t1 = temp1(s.e, s.f, s.g, s.h, k, w);
    let t2 = temp2(s.a, s.b, s.c);
    let a = t1.wrapping_add(t2);
    let e = s.d.wrapping_add(t1);
    State {
        a,
        b: s.a,
        c: s.b,
        d: s.c,
        e,
        f: s.e,
        g: s.f,
        h: s.g,
    }
}

pub(crate) fn sum(x: State, y: State) -> State
    ensures { result ≡ next_hash x y }
{
    let a = x.a.wrapping_add(y.a);
    let b = x.b.wrapping_add(y.b);
    let c = x.c.wrapping_add(y.c);
    let d = x.d.wrapping_add(y.d);
    let e = x.e.wrapping_add(y.e);
    let f = x.f.wrapping_add(y.f);
    let g = x.g.wrapping_add(y.g);
    let h = x.h.wrapping_add(y.h);
    State {
        a,
        b,
        c,
        d,
        e,
        f,
        g,
        h,
    }
}

// The word W_t of the schedule from W_(t-2), W_(t-7), W_(t-15) and W_(t-16).
pub(crate) fn next(w2: u64, w7: u64, w15: u64, w16: u64) -> u64
    ensures { result ≡ next_of w2 w7 w15 w16 }
{
    let x = small1(w2).wrapping_add(w7);
    let y = small0(w15).wrapping_add(w16);
    x.wrapping_add(y)
}
