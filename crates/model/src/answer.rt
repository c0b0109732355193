// What a call answers: a code and two numbers.
ghost use Rattle.std.specs.Prelude.{◌≡◌};
ghost use Rattle.model.specs.Answers.{refusal_code, code_of, first_of, second_of};

use crate::state::Exchange;

// Why a call is turned down, each with its number in the papers: document 01's codes 1 to 21, and document 02's 22.
#[derive(Clone, Copy, PartialEq, Eq)]
pub enum Refusal {
    NoSuchMember = 1,
    NoSuchToken = 2,
    NoSuchMarket = 3,
    NoSuchTicket = 4,
    NoSuchSide = 5,
    BadAmountOrLimit = 6,
    TicketInUse = 7,
    NoSuchOrder = 8,
    WrongTicketState = 9,
    BadTerms = 10,
    WrongPhase = 11,
    StaleBlock = 12,
    TooEarly = 13,
    SupplyExceeded = 14,
    LimitOutOfBounds = 15,
    AuctionOver = 16,
    NotAvailable = 17,
    BoundMissed = 18,
    InsufficientBalance = 19,
    MalformedLine = 20,
    BufferTooShort = 21,
    BadOrderList = 22,
}

// Accepted with its two numbers, or refused: "Code 0 is acceptance".
pub type Answer = Result<(u32, u32), Refusal>;

// An answer, and the state after it.
// A record of its own: step_of gives it.
#[derive(Clone, Copy)]
pub struct Outcome {
    pub answer: Answer,
    pub exchange: Exchange,
}

// The paper's number of a refusal.
// A function and no From: its clause equals the definition of this name.
pub fn refusal_code(why: Refusal) -> u32
    ensures { result ≡ refusal_code why }
{
    why as u32
}

// An answer's code.
// A function and no From: its clause equals code_of.
pub fn code(answer: Answer) -> u32
    ensures { result ≡ code_of answer }
{
    match answer {
        Ok(_) => 0,
        Err(why) => refusal_code(why),
    }
}

// An answer's first number, 0 where it is refused.
// A line each, here and in second; one form over a closure is no plainer.
pub fn first(answer: Answer) -> u32
    ensures { result ≡ first_of answer }
{
    answer.map_or(0, |(first, _)| first)
}

// An answer's second number, 0 where it is refused.
pub fn second(answer: Answer) -> u32
    ensures { result ≡ second_of answer }
{
    answer.map_or(0, |(_, second)| second)
}
