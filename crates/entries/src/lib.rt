// Enter on the parts that it touches. Public for the crates above; what it asks of its parts holds of the parts of every reachable state,
// and what it asks of numbers is what a call's form gives.
// A ticket is a number below 64, as in Round.tickets, of which count_of and Marked speak.
// The parts are lent apart: a struct of them would be made for each call, and taken apart in it.
#![tactic(auto)]

ghost use Rattle.std.specs.Prelude.{◌≡◌, ◌<◌, ◌≤◌, ◌+◌};
ghost use Rattle.units.specs.Counts.{largest};
ghost use Rattle.pricing.specs.Prices.{off_limit};
ghost use Rattle.model.specs.State.{totals_of};
ghost use Rattle.model.specs.Calls.{entered_round};
ghost use Rattle.model.specs.Bounds.{held_in};
ghost use Rattle.parts.specs.Asked.{EnterBounds};
ghost use Rattle.parts.specs.Parts.{enter_on};

use model::answer::{Answer, Refusal};
use model::state::{Market, Phase, Round, Ticket, TicketState};
use pricing::Side;
use sides::totals_of;
use ticket_set::insert;
use units::{Amount, Price};

// Whether a buy's limit is below hi, or a sell's above lo.
fn off_limit(side: Side, limit: Price, r: &Round) -> bool
    ensures { result ≡ off_limit side limit.0 r.now.hi.0 r.now.lo.0 }
{
    match side {
        Side::Buy => limit < r.hi,
        Side::Sell => r.lo < limit,
    }
}

// A ticket joins a round: its set, and with the whole offer its side's total and what the round holds.
fn join(r: &mut Round, ticket: u32, side: Side, offer: Amount)
    requires { (ticket < 64)
        × ((totals_of r.old side).total.0 + offer.0 ≤ largest)
        × (held_in r.old side + offer.0 ≤ largest) }
    ensures { r.new ≡ entered_round r.old ticket side offer.0 }
{
    r.tickets = insert(r.tickets, ticket);
    match side {
        Side::Buy => {
            r.buys.total = r.buys.total.plus(offer);
            r.quote = r.quote.plus(offer);
        }
        Side::Sell => {
            r.sells.total = r.sells.total.plus(offer);
            r.base = r.base.plus(offer);
        }
    }
}

// 6 Enter.
#[tactic(auto, unfolding(parts::specs::Parts::enter_on))]
pub fn enter(t: &mut Ticket, market: &mut Market, ticket: u32) -> Answer
    requires { (ticket < 64) × EnterBounds t.old market.old }
    ensures { record { answer = result; ticket = t.new; market = market.new } ≡ enter_on t.old market.old ticket }
{
    let o = match t.state {
        TicketState::Free => return Err(Refusal::NoSuchOrder),
        TicketState::Entered(_) => return Err(Refusal::WrongTicketState),
        TicketState::Resting(o) => o,
    };
    let Phase::Collect(r) = &mut market.phase else {
        return Err(Refusal::WrongPhase);
    };
    if off_limit(o.side, o.limit, r) {
        return Err(Refusal::LimitOutOfBounds);
    }
    join(r, ticket, o.side, o.offer);
    t.state = TicketState::Entered(o);
    let total = totals_of(*r, o.side).total;
    Ok((total.0, 0))
}
