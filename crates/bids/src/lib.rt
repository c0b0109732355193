// Bid on the parts that it touches. Public for the crates above; what it asks of its parts holds of the parts of every reachable state,
// and what it asks of numbers is what a call's form gives.
// The market, the row and the last block are lent apart: a struct of the three would be made for each call, and taken apart in it.
#![tactic(auto)]

ghost use Rattle.std.specs.Prelude.{◌≡◌, ◌+◌, ◌≤◌};
ghost use Rattle.units.specs.Counts.{largest};
ghost use Rattle.model.specs.Calls.{bid_quote, not_available, bound_missed, plus_trade, bid_round};
ghost use Rattle.model.specs.Bounds.{RoundBounds};
ghost use Rattle.parts.specs.Asked.{BidFits};
ghost use Rattle.parts.specs.Parts.{bid_on};
ghost use Rattle.bids.specs.Steps.{TradeRoom};

use ledger::{Row, credit_row, debit_row};
use model::answer::{Answer, Refusal};
use model::state::{Market, Phase, Round};
use pricing::{Quote, Side, Totals, auction_price, quote_for};
use rounds::settling::auction_over;
use sides::{by_side, offered_token, totals_of, wanted_token};
use units::{Amount, Block};

// The quote for n base at a block of the auction.
fn quote_at(r: Round, side: Side, block: Block, n: Amount) -> Quote
    requires { RoundBounds r × (r.start.0 ≤ block.0) × (block.0 ≤ r.start.0 + r.length) }
    ensures { result.0 ≡ bid_quote r side block.0 n.0 }
{
    let k = block.since(r.start);
    quote_for(side, n, auction_price(side, r.hi, r.lo, k, r.length))
}

// Side 1: n above the base left. Side 0: the quote comes to 0 or above the quote left.
fn not_available(side: Side, n: Amount, q: Quote, t: Totals) -> bool
    requires { t.paid.0 ≤ t.total.0 }
    ensures { result ≡ not_available side n.0 q.0 t }
{
    let left = t.total.minus(t.paid);
    match side {
        Side::Buy => q == Quote(0) || Quote::from(left) < q,
        Side::Sell => left < n,
    }
}

// The bound is the most quote that a maker pays on side 1, and the least that a maker takes on side 0.
fn bound_missed(side: Side, q: Quote, bound: Amount) -> bool
    ensures { result ≡ bound_missed side q.0 bound.0 }
{
    match side {
        Side::Buy => q < Quote::from(bound),
        Side::Sell => Quote::from(bound) < q,
    }
}

// A side with more paid and more got.
fn plus_trade(t: Totals, paid: Amount, got: Amount) -> Totals
    requires { (t.paid.0 + paid.0 ≤ largest) × (t.got.0 + got.0 ≤ largest) }
    ensures { result ≡ plus_trade t paid.0 got.0 }
{
    Totals {
        paid: t.paid.plus(paid),
        got: t.got.plus(got),
        ..t
    }
}

// The round after n base for q quote on a side: the buys pay q quote and get n base, the sells pay n base and get q quote.
fn traded_round(r: Round, side: Side, n: Amount, q: Amount) -> Round
    requires { TradeRoom r side n.0 q.0 }
    ensures { result ≡ bid_round r side n.0 q.0 }
{
    match side {
        Side::Buy => Round {
            buys: plus_trade(r.buys, q, n),
            quote: r.quote.minus(q),
            base: r.base.plus(n),
            ..r
        },
        Side::Sell => Round {
            sells: plus_trade(r.sells, n, q),
            quote: r.quote.plus(q),
            base: r.base.minus(n),
            ..r
        },
    }
}

// 8 Bid: a maker takes of what one side's orders left, at the auction's price.
#[tactic(auto, unfolding(parts::specs::Parts::bid_on))]
pub fn bid(
    market: &mut Market,
    row: &mut Row,
    last: &mut Block,
    number: u32,
    block: Block,
    side: Side,
    n: Amount,
    bound: Amount,
) -> Answer
    requires { BidFits market.old row.old last.old number }
    ensures { record { answer = result; market = market.new; row = row.new; last = last.new } ≡ bid_on market.old row.old last.old number block.0 side n.0 bound.0 }
{
    let Phase::Auction(r) = market.phase else {
        return Err(Refusal::WrongPhase);
    };
    if block < *last {
        return Err(Refusal::StaleBlock);
    }
    if auction_over(r, block) {
        return Err(Refusal::AuctionOver);
    }
    let quote = quote_at(r, side, block, n);
    if not_available(side, n, quote, totals_of(r, side)) {
        return Err(Refusal::NotAvailable);
    }
    if bound_missed(side, quote, bound) {
        return Err(Refusal::BoundMissed);
    }
    let q = quote.to_amount();
    // what the maker gives, and then takes, which always fits
    let Ok(_) = debit_row(row, wanted_token(side, number), by_side(side, n, q)) else {
        return Err(Refusal::InsufficientBalance);
    };
    let _ = credit_row(row, offered_token(side, number), by_side(side, q, n));
    market.phase = Phase::Auction(traded_round(r, side, n, q));
    *last = block;
    Ok((n.0, q.0))
}
