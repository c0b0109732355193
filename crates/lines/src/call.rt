// Call lines, read.
ghost use Rattle.std.specs.Prelude.{◌≡◌, ◌∷◌, ◌+◌, length, drop, take};
ghost use Rattle.lines.specs.CallLines.{call_of, reading_of, line_in, line_at};
ghost use Rattle.lines.specs.ReadingCode.{reading_code, Tells};

use fields::{Fields, LONGEST_LINE, read_fields};
use model::call::Call;

// A line of an input: the call that it is, or no call (20); and the place where it ends: that of its byte 10, or the input's end.
#[derive(Clone, Copy)]
pub struct LineAt {
    pub reading: Option<Call>,
    pub end: usize,
}

// The paper's number of a reading: 0 where it is a call, 20 where it is none. A function and no From: its clause equals the definition of this name.
pub fn reading_code(r: Option<Call>) -> u32
    ensures { result ≡ reading_code r }
{
    match r {
        Some(_) => 0,
        None => 20,
    }
}

// The call of a kind number and its fields, a row for each kind. No TryFrom: its clause equals call_of.
#[tactic(auto, unfolding(crate::specs::CallLines::of_kind))]
pub fn call_with(kind: u32, fields: &[u32]) -> Option<Call>
    ensures { result ≡ call_of («kind» ∷ fields.now) }
{
    match (kind, fields) {
        (1, &[member, token, amount]) => Some(Call::Deposit {
            member,
            token,
            amount,
        }),
        (2, &[member, token, amount]) => Some(Call::Withdraw {
            member,
            token,
            amount,
        }),
        (3, &[ticket, member, market, side, limit, amount]) => Some(Call::Order {
            ticket,
            member,
            market,
            side,
            limit,
            amount,
        }),
        (4, &[ticket, member]) => Some(Call::Cancel { ticket, member }),
        (5, &[market, block, reference, slack, length]) => Some(Call::Open {
            market,
            block,
            reference,
            slack,
            length,
        }),
        (6, &[ticket]) => Some(Call::Enter { ticket }),
        (7, &[market, block]) => Some(Call::Match { market, block }),
        (8, &[market, member, block, side, base, bound]) => Some(Call::Bid {
            market,
            member,
            block,
            side,
            base,
            bound,
        }),
        (9, &[market, block]) => Some(Call::Settle { market, block }),
        (10, &[ticket]) => Some(Call::Claim { ticket }),
        (11, &[ticket, member]) => Some(Call::Leave { ticket, member }),
        _ => None,
    }
}

// The call of a line's numbers, the kind first; no kind is no call.
pub fn call_in(numbers: &[u32]) -> Option<Call>
    ensures { result ≡ call_of numbers.now }
{
    match numbers {
        [kind, fields @ ..] => call_with(*kind, fields),
        [] => None,
    }
}

// The call of the numbers that the field reader found. It looks at neither the line's length nor where the reader stopped: read_line does.
#[tactic(auto, using(crate::proofs::CallLaws::no_more))]
pub fn call_of(f: Fields) -> Option<Call>
    ensures { result ≡ call_of (take f.count f.values) }
{
    if f.values.len() < f.count {
        return None;
    }
    call_in(&f.values[..f.count])
}

// The place of the first byte 10 from a place on, or the end. It keeps its own index: with a `for` a line of the day takes 1.4 in 100 instructions
// more, with `position` 2.1.
#[tactic(auto, using(crate::proofs::CallLaws::end_here, crate::proofs::CallLaws::end_next, crate::proofs::CallLaws::end_past))]
pub fn line_end(bytes: &[u8], from: usize) -> usize
    ensures { result ≡ from + length (line_in (drop from bytes.now)) }
{
    let mut i = from;
    while i < bytes.len() {
        if bytes[i] == b'\n' {
            return i;
        }
        i += 1;
    }
    i
}

// Reads the line that begins at a place.
pub fn read_line(bytes: &[u8], from: usize) -> LineAt
    ensures value { result ≡ line_at bytes.now from }
    ensures tells { Tells (line_in (drop from bytes.now)) result.reading }
{
    let f = read_fields(bytes, from);
    let end = line_end(bytes, f.stop);
    if f.stop < end {
        return LineAt { reading: None, end };
    }
    if LONGEST_LINE < end - from {
        return LineAt { reading: None, end };
    }
    LineAt {
        reading: call_of(f),
        end,
    }
}

// Reads a line that stands alone, without its byte 10.
pub fn read_call(line: &[u8]) -> Option<Call>
    ensures value { result ≡ reading_of line.now }
    ensures tells { Tells line.now result }
{
    let l = read_line(line, 0);
    if l.end < line.len() {
        return None;
    }
    l.reading
}
