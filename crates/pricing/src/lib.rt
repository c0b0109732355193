// Prices and shares of a round: bounds, the trade within, auction prices, quotes, and a ticket's share.
#![tactic(auto)]

ghost use Rattle.std.specs.Prelude.{◌≡◌, ◌*◌, ◌≤◌, min, leb, ltb};
ghost use Rattle.units.specs.Ranges.{highest_reference, highest_slack};
ghost use Rattle.units.specs.Counts.{price, largest, million};
ghost use Rattle.units.specs.Rounding.{down, up};
ghost use Rattle.pricing.specs.Prices.{
  high_bound,
  low_bound,
  lower_trade,
  trade_within,
  linear_price,
  stepped_up,
  stepped_down,
  auction_price,
  quote_for,
  share_of,
};

use units::{Amount, Price, div_down, div_up, part_down, part_up, product};

// A price counts millionths.
const MILLION: u32 = 1_000_000;

// Auction prices go in steps of this, but for hi and lo.
const PRICE_STEP: u64 = 100;

// The side of an order: a buy (0) offers quote, a sell (1) offers base.
#[derive(Clone, Copy, PartialEq, Eq)]
pub enum Side {
    Buy,
    Sell,
}

// One side of a round: what entered, what it paid and what it got.
#[derive(Clone, Copy)]
pub struct Totals {
    pub total: Amount,
    pub paid: Amount,
    pub got: Amount,
}

// What buys and sells trade with each other: base for quote.
#[derive(Clone, Copy)]
pub struct Trade {
    pub base: Amount,
    pub quote: Amount,
}

impl Trade {
    // Whether its quote is above a price for its base.
    fn is_above(self, p: Price) -> bool
        ensures { result ≡ ltb (p.0 * self.base.0) (self.quote.0 * million) }
    {
        product(p.0, self.base.0) < product(self.quote.0, MILLION)
    }

    // Whether its quote is at a price for its base or above it.
    fn reaches(self, p: Price) -> bool
        ensures { result ≡ leb (p.0 * self.base.0) (self.quote.0 * million) }
    {
        product(p.0, self.base.0) <= product(self.quote.0, MILLION)
    }
}

// What one ticket pays and gets.
#[derive(Clone, Copy)]
pub struct Share {
    pub paid: Amount,
    pub got: Amount,
}

// The quote for some base. It can pass 32 bits, so it is an amount only where it is known to be one.
#[derive(Clone, Copy, PartialEq, Eq, PartialOrd, Ord)]
pub struct Quote(pub u64);

impl From<Amount> for Quote {
    ghost from_gives = { λ a q. q.0 ≡ a.0 };

    fn from(a: Amount) -> Quote {
        Quote(u64::from(a.0))
    }
}

impl Quote {
    // The same quote as an amount. Its callers know that it is one, so it is no TryFrom, which could fail.
    pub fn to_amount(self) -> Amount
        requires { self.0 ≤ largest }
        ensures { result.0 ≡ self.0 }
    {
        Amount(self.0 as u32)
    }
}

// The functions below are public for the crates above. They ask what an open round's numbers keep, and take hi and lo as a round holds
// them: two prices.

// A round's high bound, from the reference price and the slack in millionths.
#[tactic(auto, using(crate::proofs::Prices::high_le), unfolding(crate::specs::Prices::high_bound))]
pub fn high_bound(reference: Price, slack: u32) -> Price
    requires { (reference.0 ≤ highest_reference) × (slack ≤ highest_slack) }
    ensures { result ≡ price (high_bound reference.0 slack) }
{
    Price(part_down(reference.0, MILLION + slack, MILLION) as u32)
}

// A round's low bound.
#[tactic(auto, using(crate::proofs::Prices::low_le), unfolding(crate::specs::Prices::low_bound))]
pub fn low_bound(reference: Price, slack: u32) -> Price
    requires { (reference.0 ≤ highest_reference) × (slack ≤ highest_slack) }
    ensures { result ≡ price (low_bound reference.0 slack) }
{
    Price(part_up(reference.0, MILLION - slack, MILLION) as u32)
}

// The quote for n base at a price, rounded down. Each rounding has its own function, as in units.
fn quote_down(n: Amount, p: Price) -> Quote
    ensures { result.0 ≡ down (n.0 * p.0) million }
{
    Quote(part_down(n.0, p.0, MILLION))
}

// And rounded up.
fn quote_up(n: Amount, p: Price) -> Quote
    ensures { result.0 ≡ up (n.0 * p.0) million }
{
    Quote(part_up(n.0, p.0, MILLION))
}

// The base that q quote fetches at a price, rounded down, and no more than most.
fn base_within(q: Amount, p: Price, most: Amount) -> Amount
    requires { 1 ≤ p.0 }
    ensures { result.0 ≡ min most.0 (down (q.0 * million) p.0) }
{
    let fetched = part_down(q.0, MILLION, p.0);
    Amount(fetched.min(u64::from(most.0)) as u32)
}

// What is traded for the quote rounded down: nothing where it is 0 or below lo.
fn lower_trade(lower: Trade, lo: Price) -> Trade
    ensures { result ≡ lower_trade lo.0 lower.base.0 lower.quote.0 }
{
    if Amount(1) <= lower.quote && lower.reaches(lo) {
        lower
    } else {
        Trade {
            base: Amount(0),
            quote: Amount(0),
        }
    }
}

// What buys of q quote and sells of s base trade at the reference price: the quote is rounded up, or down where that breaks hi.
#[tactic(auto, using(crate::proofs::Trades::quote_le, crate::proofs::Trades::lower_le), unfolding(crate::specs::Prices::trade_within, crate::specs::Prices::match_base, crate::specs::Prices::match_quote, crate::specs::Prices::lower_quote))]
pub fn trade_within(q: Amount, s: Amount, reference: Price, hi: Price, lo: Price) -> Trade
    requires { 1 ≤ reference.0 }
    ensures { result ≡ trade_within q.0 s.0 reference.0 hi.0 lo.0 }
{
    let base = base_within(q, reference, s);
    let upper = Trade {
        base,
        quote: quote_up(base, reference).to_amount(),
    };
    if upper.is_above(hi) {
        let lower = Trade {
            base,
            quote: quote_down(base, reference).to_amount(),
        };
        lower_trade(lower, lo)
    } else {
        upper
    }
}

// An auction's price before it is stepped.
#[tactic(auto, using(units::proofs::Rounding::part_down_le))]
fn linear_price(side: Side, hi: Price, lo: Price, k: u32, length: u32) -> Price
    requires { (lo.0 ≤ hi.0) × (k ≤ length) × (1 ≤ length) }
    ensures { result.0 ≡ linear_price side hi.0 lo.0 k length }
{
    let gone = part_down(hi.0 - lo.0, k, length) as u32;
    match side {
        Side::Buy => Price(lo.0 + gone),
        Side::Sell => Price(hi.0 - gone),
    }
}

// A price rounded up to a step, but never above hi. Rounded up it can pass 32 bits.
// Each rounding has its own, as above.
#[tactic(auto, using(crate::proofs::Prices::step_up_close))]
fn stepped_up(p: Price, hi: Price) -> Price
    ensures { result.0 ≡ stepped_up hi.0 p.0 }
{
    let rounded = div_up(u64::from(p.0), PRICE_STEP) * PRICE_STEP;
    Price(rounded.min(u64::from(hi.0)) as u32)
}

// A price rounded down to a step, but never below lo.
#[tactic(auto, using(crate::proofs::Prices::step_down_within))]
fn stepped_down(p: Price, lo: Price) -> Price
    ensures { result.0 ≡ stepped_down lo.0 p.0 }
{
    let rounded = div_down(u64::from(p.0), PRICE_STEP) * PRICE_STEP;
    Price(rounded.max(u64::from(lo.0)) as u32)
}

// The price k blocks into an auction of length blocks, of what a side's orders left, stepped.
#[tactic(auto, unfolding(crate::specs::Prices::auction_price))]
pub fn auction_price(side: Side, hi: Price, lo: Price, k: u32, length: u32) -> Price
    requires { (lo.0 ≤ hi.0) × (k ≤ length) × (1 ≤ length) }
    ensures { result ≡ price (auction_price side hi.0 lo.0 k length) }
{
    let p = linear_price(side, hi, lo, k, length);
    match side {
        Side::Buy => stepped_down(p, lo),
        Side::Sell => stepped_up(p, hi),
    }
}

// The quote for n base at a price: what a maker pays for what sells left, or gets of what buys left.
#[tactic(auto, unfolding(crate::specs::Prices::quote_for))]
pub fn quote_for(side: Side, n: Amount, p: Price) -> Quote
    ensures { result.0 ≡ quote_for side n.0 p.0 }
{
    match side {
        Side::Buy => quote_down(n, p),
        Side::Sell => quote_up(n, p),
    }
}

// The share of an offer in its side.
#[tactic(auto, using(crate::proofs::Shares::paid_le_paid, crate::proofs::Shares::got_le_got), unfolding(crate::specs::Prices::share_paid, crate::specs::Prices::share_got, crate::specs::Prices::share_of))]
pub fn share_of(offer: Amount, side: Totals) -> Share
    requires { (1 ≤ side.total.0) × (offer.0 ≤ side.total.0) }
    ensures { result ≡ share_of offer.0 side }
{
    let paid = part_up(offer.0, side.paid.0, side.total.0) as u32;
    let got = part_down(offer.0, side.got.0, side.total.0) as u32;
    Share {
        paid: Amount(paid),
        got: Amount(got),
    }
}
