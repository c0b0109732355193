// What a host asks to bring a market back to closed: how many tickets its round still marks, and which to claim next.
// Each asks that its state is reachable: hosts hold a plain Exchange or Day, and a type with the invariant would ask more of them.
#![tactic(auto)]

ghost use Rattle.std.specs.Prelude.{◌≡◌};
ghost use Rattle.model.specs.Run.{Reachable};
ghost use Rattle.model.specs.State.{round_in};
ghost use Rattle.closing.specs.Closings.{next_marked};

use forms::market_form;
use model::answer::Answer;
use model::state::{Exchange, Market, Phase};
use ticket_set::{count, next_ticket};

// The tickets that a market's round marks.
fn marked(market: Market) -> u64
    ensures { result ≡ (round_in market.phase).tickets }
{
    match market.phase {
        Phase::Closed => 0,
        Phase::Collect(r) | Phase::Auction(r) | Phase::Paying(r) => r.tickets,
    }
}

// How many tickets a market's round marks, and the lowest of them, the next to claim; 0 and 0 where none is marked.
#[tactic(auto, unfolding(crate::specs::Closings::next_marked, crate::specs::Closings::marked_in, parts::specs::Parts::form_of))]
pub fn next_marked(x: Exchange, market: u32) -> Answer
    requires { Reachable x }
    ensures { result ≡ next_marked x market }
{
    market_form(market)?;
    let set = marked(x.markets[market as usize - 1]);
    Ok((count(set), next_ticket(set).unwrap_or(0)))
}
