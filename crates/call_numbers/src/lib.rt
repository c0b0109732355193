// A call as plain numbers, its kind number and its fields: out of a call, and in from a host.
#![tactic(auto)]

ghost use Rattle.std.specs.Prelude.{◌≡◌, ◌∷◌};
ghost use Rattle.model.specs.Kinds.{numbers_of_call};
ghost use Rattle.lines.specs.CallLines.{call_of};
ghost use Rattle.lines.specs.CallText.{Small};
ghost use Rattle.call_numbers.specs.Numbers.{call_numbers};

use lines::call::call_with;
use model::call::Call;

// The first count of the values are a call's kind number and its fields, and the rest are 0.
// call_numbers says that the places after the count are 0, which an ArrayVec does not show.
#[derive(Clone, Copy)]
pub struct CallNumbers {
    pub count: usize,
    pub values: [u32; 8],
}

// The numbers of a call, a row for each kind. None is above 4,294,967,295. No From: its clause equals call_numbers.
#[tactic(auto, unfolding(crate::specs::Numbers::call_numbers))]
pub fn numbers_of(call: Call) -> CallNumbers
    ensures value { result ≡ call_numbers call }
    ensures small { Small (numbers_of_call call) }
{
    match call {
        Call::Deposit {
            member,
            token,
            amount,
        } => CallNumbers {
            count: 4,
            values: [1, member, token, amount, 0, 0, 0, 0],
        },
        Call::Withdraw {
            member,
            token,
            amount,
        } => CallNumbers {
            count: 4,
            values: [2, member, token, amount, 0, 0, 0, 0],
        },
        Call::Order {
            ticket,
            member,
            market,
            side,
            limit,
            amount,
        } => CallNumbers {
            count: 7,
            values: [3, ticket, member, market, side, limit, amount, 0],
        },
        Call::Cancel { ticket, member } => CallNumbers {
            count: 3,
            values: [4, ticket, member, 0, 0, 0, 0, 0],
        },
        Call::Open {
            market,
            block,
            reference,
            slack,
            length,
        } => CallNumbers {
            count: 6,
            values: [5, market, block, reference, slack, length, 0, 0],
        },
        Call::Enter { ticket } => CallNumbers {
            count: 2,
            values: [6, ticket, 0, 0, 0, 0, 0, 0],
        },
        Call::Match { market, block } => CallNumbers {
            count: 3,
            values: [7, market, block, 0, 0, 0, 0, 0],
        },
        Call::Bid {
            market,
            member,
            block,
            side,
            base,
            bound,
        } => CallNumbers {
            count: 7,
            values: [8, market, member, block, side, base, bound, 0],
        },
        Call::Settle { market, block } => CallNumbers {
            count: 3,
            values: [9, market, block, 0, 0, 0, 0, 0],
        },
        Call::Claim { ticket } => CallNumbers {
            count: 2,
            values: [10, ticket, 0, 0, 0, 0, 0, 0],
        },
        Call::Leave { ticket, member } => CallNumbers {
            count: 3,
            values: [11, ticket, member, 0, 0, 0, 0, 0],
        },
    }
}

// The call that a kind number and fields are, or none. No TryFrom: its clause equals call_of.
pub fn call_of_fields(kind: u32, fields: &[u32]) -> Option<Call>
    ensures { result ≡ call_of («kind» ∷ fields.now) }
{
    call_with(kind, fields)
}
