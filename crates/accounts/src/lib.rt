// Deposit, withdraw, order and cancel on the parts that they touch. Public for the crates above; what they ask of their parts holds of the
// parts of every reachable state, and what they ask of numbers is what a call's form gives.
// The parts are lent apart: a struct of them would be made for each call, and taken apart in it.
#![tactic(auto)]

ghost use Rattle.std.specs.Prelude.{◌≡◌, ◌<◌};
ghost use Rattle.parts.specs.Asked.{BankBounds, CancelBounds};
ghost use Rattle.parts.specs.Parts.{deposit_on, withdraw_on, order_on, cancel_on};

use ledger::{Row, credit_row, debit_row, entry_amount};
use model::answer::{Answer, Refusal};
use model::state::{Order, Ticket, TicketState};
use sides::offered_token;
use units::Amount;

// 1 Deposit into a member's row and a token's supply.
#[tactic(auto, using(parts::proofs::RowCalls::row_calls), unfolding(parts::specs::Parts::deposit_on))]
pub fn deposit(row: &mut Row, supply: &mut Amount, token: u32, n: Amount) -> Answer
    requires { BankBounds row.old supply.old token }
    ensures { record { answer = result; row = row.new; supply = supply.new } ≡ deposit_on row.old supply.old token n.0 }
{
    *supply = supply.checked_add(n).ok_or(Refusal::SupplyExceeded)?;
    Ok((entry_amount(credit_row(row, token, n)), 0))
}

// 2 Withdraw from a member's row and a token's supply.
#[tactic(auto, using(parts::proofs::RowCalls::row_calls), unfolding(parts::specs::Parts::withdraw_on))]
pub fn withdraw(row: &mut Row, supply: &mut Amount, token: u32, n: Amount) -> Answer
    requires { BankBounds row.old supply.old token }
    ensures { record { answer = result; row = row.new; supply = supply.new } ≡ withdraw_on row.old supply.old token n.0 }
{
    let rest = debit_row(row, token, n).map_err(|_| Refusal::InsufficientBalance)?;
    *supply = supply.minus(n);
    Ok((rest.0, 0))
}

// 3 Order: an offer moved from its member's row into a ticket.
#[tactic(auto, using(parts::proofs::RowCalls::row_calls), unfolding(parts::specs::Parts::order_on))]
pub fn order(row: &mut Row, ticket: &mut Ticket, o: Order) -> Answer
    requires { o.market < 4 }
    ensures { record { answer = result; row = row.new; ticket = ticket.new } ≡ order_on row.old ticket.old o }
{
    let TicketState::Free = ticket.state else {
        return Err(Refusal::TicketInUse);
    };
    let token = offered_token(o.side, o.market);
    debit_row(row, token, o.offer).map_err(|_| Refusal::InsufficientBalance)?;
    ticket.state = TicketState::Resting(o);
    Ok((o.offer.0, 0))
}

// 4 Cancel: a resting offer returned to its member's row.
#[tactic(auto, using(parts::proofs::RowCalls::row_calls), unfolding(parts::specs::Parts::cancel_on))]
pub fn cancel(row: &mut Row, ticket: &mut Ticket, member: u32) -> Answer
    requires { CancelBounds row.old ticket.old }
    ensures { record { answer = result; row = row.new; ticket = ticket.new } ≡ cancel_on row.old ticket.old member }
{
    match ticket.state {
        TicketState::Resting(o) if o.member == member => {
            let _ = credit_row(row, offered_token(o.side, o.market), o.offer);
            ticket.state = TicketState::Free;
            Ok((o.offer.0, 0))
        }
        TicketState::Entered(o) if o.member == member => Err(Refusal::WrongTicketState),
        _ => Err(Refusal::NoSuchOrder),
    }
}
