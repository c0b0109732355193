// Open and match on the parts that they touch. Public for the crates above; what they ask of their parts holds of the parts of every
// reachable state, and what they ask of numbers is what a call's form gives.
// The market and the last block are lent apart: a struct of the two would be made for each call, and taken apart in it.
#![tactic(auto)]

ghost use Rattle.std.specs.Prelude.{◌≡◌, ◌≤◌};
ghost use Rattle.units.specs.Ranges.{highest_reference, highest_slack};
ghost use Rattle.model.specs.Calls.{matched_round};
ghost use Rattle.parts.specs.Asked.{MatchBounds};
ghost use Rattle.parts.specs.Parts.{open_on, match_on};

pub mod settling;

use model::answer::{Answer, Refusal};
use model::state::{Market, Phase, Round};
use pricing::{Totals, Trade, high_bound, low_bound, trade_within};
use units::{Amount, Block, Price};

// A match comes so many blocks after its open, or later.
const BLOCKS_TO_MATCH: u32 = 4;

// 5 Open: a round with its terms, numbers as Round holds them, and nothing entered.
#[tactic(auto, unfolding(parts::specs::Parts::open_on))]
pub fn open(
    market: &mut Market,
    last: &mut Block,
    block: Block,
    reference: Price,
    slack: u32,
    length: u32,
) -> Answer
    requires { (reference.0 ≤ highest_reference) × (slack ≤ highest_slack) }
    ensures { record { answer = result; market = market.new; last = last.new } ≡ open_on market.old last.old block.0 reference.0 slack length }
{
    let Phase::Closed = market.phase else {
        return Err(Refusal::WrongPhase);
    };
    if block < *last {
        return Err(Refusal::StaleBlock);
    }
    let hi = high_bound(reference, slack);
    let lo = low_bound(reference, slack);
    let none = Totals {
        total: Amount(0),
        paid: Amount(0),
        got: Amount(0),
    };
    let round = Round {
        reference,
        hi,
        lo,
        length,
        opened: block,
        start: Block(0),
        tickets: 0,
        buys: none,
        sells: none,
        quote: Amount(0),
        base: Amount(0),
    };
    market.phase = Phase::Collect(round);
    *last = block;
    Ok((hi.0, lo.0))
}

// A round after its match: what its two sides trade with each other, and the auction's start.
fn matched_round(r: Round, block: Block, t: Trade) -> Round
    ensures { result ≡ matched_round r block.0 t }
{
    Round {
        start: block,
        buys: Totals {
            paid: t.quote,
            got: t.base,
            ..r.buys
        },
        sells: Totals {
            paid: t.base,
            got: t.quote,
            ..r.sells
        },
        ..r
    }
}

// 7 Match.
#[tactic(auto, unfolding(parts::specs::Parts::match_on))]
pub fn match_round(market: &mut Market, last: &mut Block, block: Block) -> Answer
    requires { MatchBounds market.old }
    ensures { record { answer = result; market = market.new; last = last.new } ≡ match_on market.old last.old block.0 }
{
    let Phase::Collect(r) = market.phase else {
        return Err(Refusal::WrongPhase);
    };
    if block < *last {
        return Err(Refusal::StaleBlock);
    }
    if block.fewer_since(r.opened, BLOCKS_TO_MATCH) {
        return Err(Refusal::TooEarly);
    }
    let t = trade_within(r.buys.total, r.sells.total, r.reference, r.hi, r.lo);
    market.phase = Phase::Auction(matched_round(r, block, t));
    *last = block;
    Ok((t.base.0, t.quote.0))
}
