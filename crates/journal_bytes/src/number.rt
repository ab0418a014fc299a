// Numbers in groups of seven bits, lowest first.
ghost use Rattle.std.specs.Prelude.{◌≡◌, ◌*◌, ◌^◌, ◌≤◌, ◌<◌, IfOk, drop};
ghost use Rattle.journal.specs.Numbers.{read_later, read_number};
ghost use Rattle.journal_bytes.specs.Results.{read_view, number_read};

use layout::refusals::Refusal;

// A second to fourth byte that ends a number and adds nothing to it: the number has a shorter form.
const NEEDLESS: u32 = 0;

// The fifth group at the front, which is the last.
#[tactic(auto, unfolding(journal::specs::Numbers::read_later))]
fn fifth(s: &[u8]) -> Result<(u32, &[u8]), Refusal>
    ensures value { read_view result ≡ read_later 0 s.now }
    ensures upper_bound { IfOk result (λ read. read.0 < 16) }
{
    let [first, rest @ ..] = s else {
        return Err(Refusal::CutEntry);
    };
    let b = u32::from(*first);
    if b == 0 || 16 <= b {
        return Err(Refusal::BadNumber);
    }
    Ok((b, rest))
}

// The fourth group at the front. It, the third and the second are a function each, and not one that calls itself: the
// depth of the stack is told from the code (bench/stack).
#[tactic(auto, unfolding(journal::specs::Numbers::read_later))]
fn fourth(s: &[u8]) -> Result<(u32, &[u8]), Refusal>
    ensures value { read_view result ≡ read_later 1 s.now }
    ensures upper_bound { IfOk result (λ read. read.0 < 16 * 128 ^ 1) }
{
    let [first, rest @ ..] = s else {
        return Err(Refusal::CutEntry);
    };
    let b = u32::from(*first);
    if b == NEEDLESS {
        return Err(Refusal::BadNumber);
    }
    if b < 128 {
        return Ok((b, rest));
    }
    let (high, rest) = fifth(rest)?;
    Ok((b - 128 + 128 * high, rest))
}

// The third group at the front.
#[tactic(auto, unfolding(journal::specs::Numbers::read_later))]
fn third(s: &[u8]) -> Result<(u32, &[u8]), Refusal>
    ensures value { read_view result ≡ read_later 2 s.now }
    ensures upper_bound { IfOk result (λ read. read.0 < 16 * 128 ^ 2) }
{
    let [first, rest @ ..] = s else {
        return Err(Refusal::CutEntry);
    };
    let b = u32::from(*first);
    if b == NEEDLESS {
        return Err(Refusal::BadNumber);
    }
    if b < 128 {
        return Ok((b, rest));
    }
    let (high, rest) = fourth(rest)?;
    Ok((b - 128 + 128 * high, rest))
}

// The second group at the front.
#[tactic(auto, unfolding(journal::specs::Numbers::read_later))]
fn second(s: &[u8]) -> Result<(u32, &[u8]), Refusal>
    ensures value { read_view result ≡ read_later 3 s.now }
    ensures upper_bound { IfOk result (λ read. read.0 < 16 * 128 ^ 3) }
{
    let [first, rest @ ..] = s else {
        return Err(Refusal::CutEntry);
    };
    let b = u32::from(*first);
    if b == NEEDLESS {
        return Err(Refusal::BadNumber);
    }
    if b < 128 {
        return Ok((b, rest));
    }
    let (high, rest) = third(rest)?;
    Ok((b - 128 + 128 * high, rest))
}

// The number at the front, and the bytes behind it. Refused: 21, a byte that could not stand there; 22,
// the end.
#[tactic(auto, unfolding(journal::specs::Numbers::read_number))]
pub fn take_number(s: &[u8]) -> Result<(u32, &[u8]), Refusal>
    ensures { read_view result ≡ read_number s.now }
{
    let [first, rest @ ..] = s else {
        return Err(Refusal::CutEntry);
    };
    let b = u32::from(*first);
    if b < 128 {
        return Ok((b, rest));
    }
    let (high, rest) = second(rest)?;
    Ok((b - 128 + 128 * high, rest))
}

// The number at an index, and how many bytes it took. Refused as there.
pub fn read_number(s: &[u8], at: usize) -> Result<(u32, usize), Refusal>
    ensures { result ≡ number_read (drop at s.now) }
{
    if s.len() < at {
        return Err(Refusal::CutEntry);
    }
    let (value, rest) = take_number(&s[at..])?;
    Ok((value, s.len() - at - rest.len()))
}
