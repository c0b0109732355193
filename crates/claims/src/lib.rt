// Claim on the parts that it touches. Public for the crates above; what it asks of its parts holds of the parts of every reachable state,
// and what it asks of numbers is what a call's form gives.
// A ticket is a number below 64, as in Round.tickets, of which count_of and Marked speak.
// The parts are lent apart: a struct of them would be made for each call, and taken apart in it.
#![tactic(auto)]

ghost use Rattle.std.specs.Prelude.{◌≡◌, ◌<◌, ◌≤◌, ◌+◌};
ghost use Rattle.units.specs.Counts.{largest};
ghost use Rattle.ledger.specs.Balances.{cell_of, credited_row};
ghost use Rattle.model.specs.Sides.{by_side};
ghost use Rattle.model.specs.State.{resting_or};
ghost use Rattle.model.specs.Calls.{claimed_round};
ghost use Rattle.parts.specs.Asked.{ClaimFits};
ghost use Rattle.parts.specs.Parts.{claim_on};

use ledger::{Row, credit_row};
use model::answer::{Answer, Refusal};
use model::state::{Market, Order, Phase, Round, Ticket, TicketState};
use pricing::{Side, share_of};
use sides::{by_side, totals_of, wanted_token};
use ticket_set::{count, remove};
use units::Amount;

// What is left of an order rests; where that is 0, the ticket is free.
fn resting_or(o: Order, rest: Amount) -> TicketState
    ensures { result ≡ resting_or o rest.0 }
{
    if rest == Amount(0) {
        TicketState::Free
    } else {
        TicketState::Resting(Order { offer: rest, ..o })
    }
}

// A ticket's bit cleared in its round, and its refund and what it got moved out.
fn move_out(r: &mut Round, ticket: u32, side: Side, refund: Amount, got: Amount)
    requires { (ticket < 64)
        × (by_side side refund.0 got.0 ≤ r.old.quote.0)
        × (by_side side got.0 refund.0 ≤ r.old.base.0) }
    ensures { r.new ≡ claimed_round r.old ticket side refund.0 got.0 }
{
    r.tickets = remove(r.tickets, ticket);
    r.quote = r.quote.minus(by_side(side, refund, got));
    r.base = r.base.minus(by_side(side, got, refund));
}

// What an order gets, added to its member's row: it fits, so the ledger refuses nothing.
#[tactic(auto, using(parts::proofs::RowCalls::row_calls))]
fn credit(row: &mut Row, token: u32, n: Amount)
    requires { (token < 4) × (cell_of row.old token + n.0 ≤ largest) }
    ensures { row.new ≡ credited_row row.old token n.0 }
{
    let _ = credit_row(row, token, n);
}

// 10 Claim: a ticket in a round that pays is paid its share. The last claim closes the market, and what the round still holds goes into the
// residue.
#[tactic(auto, using(model::proofs::Frames::wanted_lt), unfolding(parts::specs::Parts::claim_on, pricing::specs::Prices::share_of))]
pub fn claim(
    t: &mut Ticket,
    market: &mut Market,
    row: &mut Row,
    quote: &mut Amount,
    base: &mut Amount,
    ticket: u32,
) -> Answer
    requires { (ticket < 64) × ClaimFits t.old market.old row.old quote.old base.old ticket }
    ensures { record { answer = result; ticket = t.new; market = market.new; row = row.new; quote = quote.new; base = base.new }
        ≡ claim_on t.old market.old row.old quote.old base.old ticket }
{
    let o = match t.state {
        TicketState::Free => return Err(Refusal::NoSuchOrder),
        TicketState::Resting(_) => return Err(Refusal::WrongTicketState),
        TicketState::Entered(o) => o,
    };
    let Phase::Paying(r) = &mut market.phase else {
        return Err(Refusal::WrongPhase);
    };
    let share = share_of(o.offer, totals_of(*r, o.side));
    let refund = o.offer.minus(share.paid);
    move_out(r, ticket, o.side, refund, share.got);
    t.state = resting_or(o, refund);
    credit(row, wanted_token(o.side, o.market), share.got);
    if count(r.tickets) == 0 {
        *quote = quote.plus(r.quote);
        *base = base.plus(r.base);
        market.phase = Phase::Closed;
    }
    Ok((share.paid.0, share.got.0))
}
