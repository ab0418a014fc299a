// A kind of work as three numbers, and the kind that any three numbers are.
ghost use Rattle.std.specs.Prelude.{◌≡◌};
ghost use Rattle.table.specs.Coding.{coded_as, coded_of, is_kind, kind_of};

use crate::{Kind, StashAt};

// How many kinds there are.
const KINDS: u32 = 11;

// A kind's number and its two indices; one that it does not have is 0. The numbers stay: they are the C interface's,
// word 0 of a work buffer.
#[derive(Clone, Copy)]
pub struct Coded {
    pub number: u32,
    pub first: usize,
    pub second: usize,
}

impl Coded {
    fn new(number: u32, first: usize, second: usize) -> Coded
        ensures { result ≡ coded_as number first second }
    {
        Coded {
            number,
            first,
            second,
        }
    }
}

// (kept: a function beside `From`, as `decode`: both are total over the numbers that C holds, whatever they are)
#[tactic(auto, unfolding(crate::specs::Coding::coded_of))]
pub fn encode(kind: Kind) -> Coded
    ensures { result ≡ coded_of kind }
{
    match kind {
        Kind::Nothing => Coded::new(0, 0, 0),
        Kind::Disabling => Coded::new(1, 0, 0),
        Kind::Stash(at) => Coded::new(2, at.node, at.holder),
        Kind::Update(root) => Coded::new(3, root, 0),
        Kind::ColdBoot => Coded::new(4, 0, 0),
        Kind::Extension(register) => Coded::new(5, register, 0),
        Kind::Derive(i) => Coded::new(6, i, 0),
        Kind::Replace(at) => Coded::new(7, at.node, at.holder),
        Kind::Extend(i) => Coded::new(8, i, 0),
        Kind::Rotate(i) => Coded::new(9, i, 0),
        Kind::Destroy(count) => Coded::new(10, count, 0),
    }
}

impl From<Kind> for Coded {
    ghost from_gives = { λ k c. c ≡ coded_of k };

    fn from(kind: Kind) -> Coded {
        encode(kind)
    }
}

// Whether a number is a kind's.
#[tactic(auto, unfolding(crate::specs::Coding::is_kind))]
pub fn is_kind(number: u32) -> bool
    ensures { result ≡ is_kind number }
{
    number < KINDS
}

#[tactic(auto, unfolding(crate::specs::Coding::kind_of))]
pub fn decode(coded: Coded) -> Kind
    ensures { result ≡ kind_of coded }
{
    let number = coded.number;
    let at = StashAt {
        node: coded.first,
        holder: coded.second,
    };
    match number {
        1 => Kind::Disabling,
        2 => Kind::Stash(at),
        3 => Kind::Update(coded.first),
        4 => Kind::ColdBoot,
        5 => Kind::Extension(coded.first),
        6 => Kind::Derive(coded.first),
        7 => Kind::Replace(at),
        8 => Kind::Extend(coded.first),
        9 => Kind::Rotate(coded.first),
        10 => Kind::Destroy(coded.first),
        _ => Kind::Nothing,
    }
}

impl From<Coded> for Kind {
    ghost from_gives = { λ c k. k ≡ kind_of c };

    fn from(coded: Coded) -> Kind {
        decode(coded)
    }
}
