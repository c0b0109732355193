// Settle on the parts that it touches. Public for the crates above.
ghost use Rattle.std.specs.Prelude.{◌≡◌};
ghost use Rattle.model.specs.Calls.{is_over, is_early, unfilled, settled_phase};
ghost use Rattle.parts.specs.Parts.{settle_on};

use model::answer::{Answer, Refusal};
use model::state::{Market, Phase, Round};
use pricing::Totals;
use ticket_set::count;
use units::Block;

// k > L: a block after the auction's last.
pub fn auction_over(r: Round, block: Block) -> bool
    ensures { result ≡ is_over r block.0 }
{
    block.more_since(r.start, r.length)
}

// A side has something left.
fn has_left(t: Totals) -> bool
    ensures { result ≡ unfilled t }
{
    t.paid < t.total
}

// Something left and k ≤ L.
fn too_early(r: Round, block: Block) -> bool
    ensures { result ≡ is_early r block.0 }
{
    !auction_over(r, block) && (has_left(r.buys) || has_left(r.sells))
}

// Paying, or closed at once where no ticket is marked.
fn settled_phase(r: Round) -> Phase
    ensures { result ≡ settled_phase r }
{
    if count(r.tickets) == 0 {
        return Phase::Closed;
    }
    Phase::Paying(r)
}

// 9 Settle: a round's auction ends, and its market pays or is closed.
#[tactic(auto, unfolding(parts::specs::Parts::settle_on))]
pub fn settle(market: &mut Market, last: &mut Block, block: Block) -> Answer
    ensures { record { answer = result; market = market.new; last = last.new } ≡ settle_on market.old last.old block.0 }
{
    let Phase::Auction(r) = market.phase else {
        return Err(Refusal::WrongPhase);
    };
    if block < *last {
        return Err(Refusal::StaleBlock);
    }
    if too_early(r, block) {
        return Err(Refusal::TooEarly);
    }
    market.phase = settled_phase(r);
    *last = block;
    Ok((r.buys.paid.0, r.sells.paid.0))
}
