// The calls, each in a state that calls can leave: on a state lent to the call, and by value. A call's work is done on the parts that it touches, where they
// lie; a member's row, and two cells of the residue, are taken out, changed and put back.
// Each asks that its state is reachable: hosts hold a plain Exchange, and a type with the invariant would ask more of them.
#![tactic(auto)]

ghost use Rattle.std.specs.Prelude.{◌≡◌, Ok};
ghost use Rattle.model.specs.Calls.{deposit_of, withdraw_of, order_of, cancel_of, open_of, enter_of, match_of, bid_of, settle_of, claim_of, leave_of};
ghost use Rattle.model.specs.Run.{Reachable, step_of};
ghost use Rattle.work.specs.Work.{work_done, PlacesExist};
ghost use Rattle.work.specs.declared.Work.TheVariants.{Account, Market, Entry, Claim};

use model::answer::{Answer, Outcome};
use model::call::Call;
use model::state::Exchange;
use sides::{ticket_market, ticket_member};
use units::Block;
use work::{AccountAct, EntryAct, MarketAct, Work, account_work, entry_work, market_work, work_of};

// Work on a member's row, a token's supply and a ticket.
fn on_account(x: &mut Exchange, member: u32, token: u32, ticket: u32, act: AccountAct) -> Answer
    requires { Reachable x.old × PlacesExist (Account member token ticket act) }
    ensures { record { answer = result; exchange = x.new } ≡ work_done x.old (Ok (Account member token ticket act)) }
{
    let m = member as usize;
    let mut row = x.ledger.rows[m];
    let answer = account_work(
        &mut row,
        &mut x.supply[token as usize],
        &mut x.tickets[ticket as usize],
        member,
        token,
        act,
    );
    x.ledger.rows[m] = row;
    answer
}

// Work on a market, a member's row and the last block.
fn on_market(x: &mut Exchange, market: u32, member: u32, block: Block, act: MarketAct) -> Answer
    requires { Reachable x.old × PlacesExist (Market market member block act) }
    ensures { record { answer = result; exchange = x.new } ≡ work_done x.old (Ok (Market market member block act)) }
{
    let m = member as usize;
    let mut row = x.ledger.rows[m];
    let answer = market_work(
        &mut x.markets[(market - 1) as usize],
        &mut row,
        &mut x.last,
        market,
        block,
        act,
    );
    x.ledger.rows[m] = row;
    answer
}

// Work on a ticket and its market.
#[tactic(auto, using(crate::proofs::Works::ticket_in))]
fn on_entry(x: &mut Exchange, ticket: u32, act: EntryAct) -> Answer
    requires { Reachable x.old × PlacesExist (Entry ticket act) }
    ensures { record { answer = result; exchange = x.new } ≡ work_done x.old (Ok (Entry ticket act)) }
{
    let k = ticket as usize;
    let market = ticket_market(x.tickets[k]);
    entry_work(
        &mut x.tickets[k],
        &mut x.markets[(market - 1) as usize],
        ticket,
        act,
    )
}

// Work on a ticket, its market, its member's row and the residue of the market's two tokens.
#[tactic(auto, using(crate::proofs::Works::ticket_in))]
fn on_claim(x: &mut Exchange, ticket: u32) -> Answer
    requires { Reachable x.old × PlacesExist (Claim ticket) }
    ensures { record { answer = result; exchange = x.new } ≡ work_done x.old (Ok (Claim ticket)) }
{
    let k = ticket as usize;
    let market = ticket_market(x.tickets[k]);
    let m = ticket_member(x.tickets[k]) as usize;
    let mut row = x.ledger.rows[m];
    let mut quote = x.residue[0];
    let mut base = x.residue[market as usize];
    let answer = claims::claim(
        &mut x.tickets[k],
        &mut x.markets[(market - 1) as usize],
        &mut row,
        &mut quote,
        &mut base,
        ticket,
    );
    x.ledger.rows[m] = row;
    x.residue[0] = quote;
    x.residue[market as usize] = base;
    answer
}

// One call on a state lent to it: its answer. x is then the state after it.
#[tactic(auto, using(crate::proofs::Works::no_work_step))]
pub fn apply(x: &mut Exchange, c: Call) -> Answer
    requires { Reachable x.old }
    ensures { record { answer = result; exchange = x.new } ≡ step_of x.old c }
{
    let work = work_of(c)?;
    match work {
        Work::Account {
            member,
            token,
            ticket,
            act,
        } => on_account(x, member, token, ticket, act),
        Work::Market {
            market,
            member,
            block,
            act,
        } => on_market(x, market, member, block, act),
        Work::Entry { ticket, act } => on_entry(x, ticket, act),
        Work::Claim { ticket } => on_claim(x, ticket),
    }
}

// One call: its answer, and the state after it.
pub fn step(x: Exchange, c: Call) -> Outcome
    requires { Reachable x }
    ensures { result ≡ step_of x c }
{
    let mut exchange = x;
    let answer = apply(&mut exchange, c);
    Outcome { answer, exchange }
}

// The calls by value, one by one: docs/CLAUSES.md has each for hosts, with its definition.

// 1 Deposit.
#[tactic(auto, unfolding(model::specs::Run::step_of, model::specs::Calls::deposit_of))]
pub fn deposit(x: Exchange, member: u32, token: u32, amount: u32) -> Outcome
    requires { Reachable x }
    ensures { result ≡ deposit_of x member token amount }
{
    step(
        x,
        Call::Deposit {
            member,
            token,
            amount,
        },
    )
}

// 2 Withdraw.
#[tactic(auto, unfolding(model::specs::Run::step_of, model::specs::Calls::withdraw_of))]
pub fn withdraw(x: Exchange, member: u32, token: u32, amount: u32) -> Outcome
    requires { Reachable x }
    ensures { result ≡ withdraw_of x member token amount }
{
    step(
        x,
        Call::Withdraw {
            member,
            token,
            amount,
        },
    )
}

// 3 Order.
#[tactic(auto, unfolding(model::specs::Run::step_of, model::specs::Calls::order_of))]
pub fn order(
    x: Exchange,
    ticket: u32,
    member: u32,
    market: u32,
    side: u32,
    limit: u32,
    amount: u32,
) -> Outcome
    requires { Reachable x }
    ensures { result ≡ order_of x ticket member market side limit amount }
{
    step(
        x,
        Call::Order {
            ticket,
            member,
            market,
            side,
            limit,
            amount,
        },
    )
}

// 4 Cancel.
#[tactic(auto, unfolding(model::specs::Run::step_of, model::specs::Calls::cancel_of))]
pub fn cancel(x: Exchange, ticket: u32, member: u32) -> Outcome
    requires { Reachable x }
    ensures { result ≡ cancel_of x ticket member }
{
    step(x, Call::Cancel { ticket, member })
}

// 5 Open.
#[tactic(auto, unfolding(model::specs::Run::step_of, model::specs::Calls::open_of))]
pub fn open(
    x: Exchange,
    market: u32,
    block: u32,
    reference: u32,
    slack: u32,
    length: u32,
) -> Outcome
    requires { Reachable x }
    ensures { result ≡ open_of x market block reference slack length }
{
    step(
        x,
        Call::Open {
            market,
            block,
            reference,
            slack,
            length,
        },
    )
}

// 6 Enter.
#[tactic(auto, unfolding(model::specs::Run::step_of, model::specs::Calls::enter_of))]
pub fn enter(x: Exchange, ticket: u32) -> Outcome
    requires { Reachable x }
    ensures { result ≡ enter_of x ticket }
{
    step(x, Call::Enter { ticket })
}

// 7 Match.
#[tactic(auto, unfolding(model::specs::Run::step_of, model::specs::Calls::match_of))]
pub fn match_round(x: Exchange, market: u32, block: u32) -> Outcome
    requires { Reachable x }
    ensures { result ≡ match_of x market block }
{
    step(x, Call::Match { market, block })
}

// 8 Bid.
#[tactic(auto, unfolding(model::specs::Run::step_of, model::specs::Calls::bid_of))]
pub fn bid(
    x: Exchange,
    market: u32,
    member: u32,
    block: u32,
    side: u32,
    base: u32,
    bound: u32,
) -> Outcome
    requires { Reachable x }
    ensures { result ≡ bid_of x market member block side base bound }
{
    step(
        x,
        Call::Bid {
            market,
            member,
            block,
            side,
            base,
            bound,
        },
    )
}

// 9 Settle.
#[tactic(auto, unfolding(model::specs::Run::step_of, model::specs::Calls::settle_of))]
pub fn settle(x: Exchange, market: u32, block: u32) -> Outcome
    requires { Reachable x }
    ensures { result ≡ settle_of x market block }
{
    step(x, Call::Settle { market, block })
}

// 10 Claim.
#[tactic(auto, unfolding(model::specs::Run::step_of, model::specs::Calls::claim_of))]
pub fn claim(x: Exchange, ticket: u32) -> Outcome
    requires { Reachable x }
    ensures { result ≡ claim_of x ticket }
{
    step(x, Call::Claim { ticket })
}

// 11 Leave.
#[tactic(auto, unfolding(model::specs::Run::step_of, model::specs::Calls::leave_of))]
pub fn leave(x: Exchange, ticket: u32, member: u32) -> Outcome
    requires { Reachable x }
    ensures { result ≡ leave_of x ticket member }
{
    step(x, Call::Leave { ticket, member })
}
