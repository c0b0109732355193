// Leave on the parts that it touches. Public for the crates above; what it asks of its parts holds of the parts of every reachable state,
// and what it asks of numbers is what a call's form gives.
// A ticket is a number below 64, as in Round.tickets, of which count_of and Marked speak.
// The parts are lent apart: a struct of them would be made for each call, and taken apart in it.
#![tactic(auto)]

ghost use Rattle.std.specs.Prelude.{◌≡◌, ◌<◌, ◌≤◌};
ghost use Rattle.model.specs.State.{totals_of};
ghost use Rattle.model.specs.Calls.{left_round};
ghost use Rattle.model.specs.Bounds.{held_in};
ghost use Rattle.parts.specs.Asked.{LeaveBounds};
ghost use Rattle.parts.specs.Parts.{leave_on};

use model::answer::{Answer, Refusal};
use model::state::{Market, Phase, Round, Ticket, TicketState};
use pricing::Side;
use ticket_set::remove;
use units::Amount;

// A ticket leaves a round: its set, and with its offer its side's total and what the round holds. Enter's join with minus for plus; one form for
// both would take the sum as a closure, and state each bound and each result by that closure's conditions.
fn take_out(r: &mut Round, ticket: u32, side: Side, offer: Amount)
    requires { (ticket < 64)
        × (offer.0 ≤ (totals_of r.old side).total.0)
        × (offer.0 ≤ held_in r.old side) }
    ensures { r.new ≡ left_round r.old ticket side offer.0 }
{
    r.tickets = remove(r.tickets, ticket);
    match side {
        Side::Buy => {
            r.buys.total = r.buys.total.minus(offer);
            r.quote = r.quote.minus(offer);
        }
        Side::Sell => {
            r.sells.total = r.sells.total.minus(offer);
            r.base = r.base.minus(offer);
        }
    }
}

// 11 Leave: a ticket in a round, by its own member, only while the round collects.
#[tactic(auto, unfolding(parts::specs::Parts::leave_on))]
pub fn leave(t: &mut Ticket, market: &mut Market, ticket: u32, member: u32) -> Answer
    requires { (ticket < 64) × LeaveBounds t.old market.old }
    ensures { record { answer = result; ticket = t.new; market = market.new } ≡ leave_on t.old market.old ticket member }
{
    let o = match t.state {
        TicketState::Entered(o) if o.member == member => o,
        TicketState::Resting(o) if o.member == member => return Err(Refusal::WrongTicketState),
        _ => return Err(Refusal::NoSuchOrder),
    };
    let Phase::Collect(r) = &mut market.phase else {
        return Err(Refusal::WrongPhase);
    };
    take_out(r, ticket, o.side, o.offer);
    t.state = TicketState::Resting(o);
    Ok((o.offer.0, 0))
}
