// The working variables and the hash value (FIPS 180-4, sections 2.2.1 and 6.4.2).
ghost use Rattle.std.specs.Prelude.{◌≡◌};
ghost use Rattle.sha_block.specs.Blocks.{hash_words, hash_value};

// The working variables, eight words of 64 bits, a to h.
#[derive(Clone, Copy)]
pub struct State {
    pub a: u64,
    pub b: u64,
    pub c: u64,
    pub d: u64,
    pub e: u64,
    pub f: u64,
    pub g: u64,
    pub h: u64,
}

// The working variables at the start of a block: the hash value's words H_0 to H_7.
impl From<[u64; 8]> for State {
    ghost from_gives = { λ h s. s ≡ hash_value h };

    fn from(h: [u64; 8]) -> State {
        State {
            a: h[0],
            b: h[1],
            c: h[2],
            d: h[3],
            e: h[4],
            f: h[5],
            g: h[6],
            h: h[7],
        }
    }
}

impl From<State> for [u64; 8] {
    ghost from_gives = { λ s h. h ≡ hash_words s };

    fn from(s: State) -> [u64; 8] {
        [s.a, s.b, s.c, s.d, s.e, s.f, s.g, s.h]
    }
}
