// A morning's orders at once (document 02, L5): a lent list of orders, each handed to the single-order call, and a lent list that takes their answers.
#![tactic(auto)]

ghost use Rattle.std.specs.Prelude.{◌≡◌};
ghost use Rattle.model.specs.Run.{Reachable};
ghost use Rattle.model.specs.OrderLists.{orders_of};

use exchange::order;
use model::answer::{Outcome, Refusal};
use model::orders::{AnswerPlace, OrderFields};
use model::state::Exchange;

// "up to 64"
const MOST_ORDERS: usize = 64;

// The orders made singly from first to last, each answer in its place; or 22, and nothing changes. It asks that its state is reachable, as exchange does.
#[tactic(auto, using(crate::proofs::Turns::none_made, crate::proofs::Turns::all_made), unfolding(model::specs::OrderLists::orders_of))]
pub fn place_orders(x: Exchange, list: &[OrderFields], answers: &mut [AnswerPlace]) -> Outcome
    requires { Reachable x }
    ensures { (result.answer ≡ (orders_of x list.now answers.old).answer)
        × (result.exchange ≡ (orders_of x list.now answers.old).exchange)
        × (answers.new ≡ (orders_of x list.now answers.old).answers) }
{
    let mut exchange = x;
    if list.len() != answers.len() || MOST_ORDERS < list.len() {
        return Outcome {
            answer: Err(Refusal::BadOrderList),
            exchange,
        };
    }
    // by index: after an adapter of iter_mut nothing is known of what it went over
    for (i, f) in list.iter().enumerate() {
        let o = order(
            exchange, f.ticket, f.member, f.market, f.side, f.limit, f.amount,
        );
        answers[i].answer = o.answer;
        exchange = o.exchange;
    }
    Outcome {
        answer: Ok((0, 0)),
        exchange,
    }
}
