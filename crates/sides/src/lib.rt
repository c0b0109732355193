// Readers of a side, of its totals and tokens, and of the places that a ticket's order names. Token 0 is the quote, and market n's base is token n.
// Public for the crates above.
#![tactic(auto)]

ghost use Rattle.std.specs.Prelude.{◌≡◌};
ghost use Rattle.model.specs.Sides.{side_of, by_side, offered, wanted};
ghost use Rattle.model.specs.State.{totals_of};
ghost use Rattle.parts.specs.Parts.{ticket_market, ticket_member};

use model::state::{Round, Ticket, TicketState};
use pricing::{Side, Totals};

// The side of a field that is 0 or 1. Its definition has a side for every number, so it is no TryFrom.
pub fn side_of(side: u32) -> Side
    ensures { result ≡ side_of side }
{
    if side == 0 { Side::Buy } else { Side::Sell }
}

// The first for buys, the second for sells.
pub fn by_side<T: Drop>(side: Side, buys: T, sells: T) -> T
    ensures { result ≡ by_side side buys sells }
{
    match side {
        Side::Buy => buys,
        Side::Sell => sells,
    }
}

// The token that a side of a market offers.
pub fn offered_token(side: Side, market: u32) -> u32
    ensures { result ≡ offered side market }
{
    by_side(side, 0, market)
}

// The token that a side of a market gets.
pub fn wanted_token(side: Side, market: u32) -> u32
    ensures { result ≡ wanted side market }
{
    by_side(side, market, 0)
}

// The total, paid and got of a side.
pub fn totals_of(r: Round, side: Side) -> Totals
    ensures { result ≡ totals_of r side }
{
    by_side(side, r.buys, r.sells)
}

// The market of a ticket's order, 1 where it is free.
// Two lines each, here and in ticket_member; one form over a closure is no plainer.
pub fn ticket_market(t: Ticket) -> u32
    ensures { result ≡ ticket_market t.state }
{
    match t.state {
        TicketState::Free => 1,
        TicketState::Resting(o) | TicketState::Entered(o) => o.market,
    }
}

// The member of a ticket's order, 0 where it is free.
pub fn ticket_member(t: Ticket) -> u32
    ensures { result ≡ ticket_member t.state }
{
    match t.state {
        TicketState::Free => 0,
        TicketState::Resting(o) | TicketState::Entered(o) => o.member,
    }
}
