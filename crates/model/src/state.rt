// The state of the exchange (document 01: the house).
ghost use Rattle.std.specs.Prelude.{◌≡◌};
ghost use Rattle.model.specs.State.{fresh_exchange};

use ledger::Ledger;
use pricing::{Side, Totals};
use units::{Amount, Block, Price};

// An order: who offers what, in which market, and at which limit; offer is what is left of it.
#[derive(Clone, Copy)]
pub struct Order {
    pub member: u32,
    pub market: u32,
    pub side: Side,
    pub limit: Price,
    pub offer: Amount,
}

// "A ticket is free, resting, or in a round, and one in use carries its order".
#[derive(Clone, Copy)]
pub enum TicketState {
    Free,
    Resting(Order),
    Entered(Order),
}

// One of the 64 tickets.
#[derive(Clone, Copy)]
pub struct Ticket {
    pub state: TicketState,
}

// A round from its open on. reference, hi and lo are its prices, length its auction's blocks, opened and start the blocks
// of its open and its match (0 before it), tickets the set of its tickets, buys and sells its sides (their totals are the
// paper's Q and S), quote and base what it holds.
#[derive(Clone, Copy)]
pub struct Round {
    pub reference: Price,
    pub hi: Price,
    pub lo: Price,
    pub length: u32,
    pub opened: Block,
    pub start: Block,
    pub tickets: u64,
    pub buys: Totals,
    pub sells: Totals,
    pub quote: Amount,
    pub base: Amount,
}

// "Phase: closed, collect, auction, paying"; a closed market has no numbers.
#[derive(Clone, Copy)]
pub enum Phase {
    Closed,
    Collect(Round),
    Auction(Round),
    Paying(Round),
}

// One of the markets 1 to 3.
#[derive(Clone, Copy)]
pub struct Market {
    pub phase: Phase,
}

// supply is deposits less withdrawals by token, residue (the paper's tray) what rounding left by token; market n stands at
// place n - 1; last is the last block accepted.
// Arrays: there is no heap, and the sizes are the paper's.
#[derive(Clone, Copy)]
pub struct Exchange {
    pub ledger: Ledger,
    pub supply: [Amount; 4],
    pub residue: [Amount; 4],
    pub tickets: [Ticket; 64],
    pub markets: [Market; 3],
    pub last: Block,
}

// "A fresh house is all zero, free and closed."
pub fn fresh() -> Exchange
    ensures { result ≡ fresh_exchange }
{
    let zeros = [Amount(0); 4];
    let ticket = Ticket {
        state: TicketState::Free,
    };
    let market = Market {
        phase: Phase::Closed,
    };
    Exchange {
        ledger: ledger::fresh(),
        supply: zeros,
        residue: zeros,
        tickets: [ticket; 64],
        markets: [market; 3],
        last: Block(0),
    }
}
