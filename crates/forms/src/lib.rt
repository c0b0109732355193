// Refusals that a call's numbers alone decide, first in the paper's order.
#![tactic(auto, unfolding(parts::specs::Parts::form_of))]

ghost use Rattle.std.specs.Prelude.{◌≡◌, [], ◌∷◌};
ghost use Rattle.units.specs.Ranges.{last_member, last_side};
ghost use Rattle.units.specs.Decide.{when};
ghost use Rattle.model.specs.declared.answer.Refusal.TheVariants.{NoSuchMember, NoSuchSide};
ghost use Rattle.model.specs.Calls.{above, bank_form, order_form, cancel_form, open_form, ticket_form, market_form, bid_form};
ghost use Rattle.parts.specs.Parts.{form_of};

use model::answer::Refusal;

// The numbers that a call may name.
// LAST_MEMBER and LAST_TOKEN are also in ledger, which is licensed alone; the edits token_four and member_sixteen change these.
const LAST_MEMBER: u32 = 15;

const LAST_TOKEN: u32 = 3;

const FIRST_MARKET: u32 = 1;

const LAST_MARKET: u32 = 3;

const LAST_TICKET: u32 = 63;

const LAST_SIDE: u32 = 1;

const HIGHEST_LIMIT: u32 = 2_000_000_000;

const HIGHEST_REFERENCE: u32 = 1_000_000_000;

const WIDEST_SLACK: u32 = 500_000;

const LONGEST_AUCTION: u32 = 64;

// Refused where a test holds.
fn refuse_if(test: bool, why: Refusal) -> Result<(), Refusal>
    ensures { result ≡ form_of (when test why ∷ []) }
{
    if test { Err(why) } else { Ok(()) }
}

// Member 0 to 15.
fn member_form(member: u32) -> Result<(), Refusal>
    ensures { result ≡ form_of (when (above member last_member) NoSuchMember ∷ []) }
{
    refuse_if(LAST_MEMBER < member, Refusal::NoSuchMember)
}

// Ticket 0 to 63. Enter and claim.
pub fn ticket_form(ticket: u32) -> Result<(), Refusal>
    ensures { result ≡ form_of (ticket_form ticket) }
{
    refuse_if(LAST_TICKET < ticket, Refusal::NoSuchTicket)
}

// Market 1 to 3. Match and settle.
pub fn market_form(market: u32) -> Result<(), Refusal>
    ensures { result ≡ form_of (market_form market) }
{
    refuse_if(
        market < FIRST_MARKET || LAST_MARKET < market,
        Refusal::NoSuchMarket,
    )
}

// Side 0 or 1.
fn side_form(side: u32) -> Result<(), Refusal>
    ensures { result ≡ form_of (when (above side last_side) NoSuchSide ∷ []) }
{
    refuse_if(LAST_SIDE < side, Refusal::NoSuchSide)
}

// Deposit and withdraw.
pub fn bank_form(member: u32, token: u32, amount: u32) -> Result<(), Refusal>
    ensures { result ≡ form_of (bank_form member token amount) }
{
    member_form(member)?;
    refuse_if(LAST_TOKEN < token, Refusal::NoSuchToken)?;
    refuse_if(amount == 0, Refusal::BadAmountOrLimit)
}

// Order.
pub fn order_form(
    ticket: u32,
    member: u32,
    market: u32,
    side: u32,
    limit: u32,
    amount: u32,
) -> Result<(), Refusal>
    ensures { result ≡ form_of (order_form ticket member market side limit amount) }
{
    member_form(member)?;
    market_form(market)?;
    ticket_form(ticket)?;
    side_form(side)?;
    refuse_if(
        amount == 0 || limit < 1 || HIGHEST_LIMIT < limit,
        Refusal::BadAmountOrLimit,
    )
}

// Cancel and leave.
pub fn cancel_form(ticket: u32, member: u32) -> Result<(), Refusal>
    ensures { result ≡ form_of (cancel_form ticket member) }
{
    member_form(member)?;
    ticket_form(ticket)
}

// Open.
pub fn open_form(market: u32, reference: u32, slack: u32, length: u32) -> Result<(), Refusal>
    ensures { result ≡ form_of (open_form market reference slack length) }
{
    market_form(market)?;
    refuse_if(
        reference < 1
            || HIGHEST_REFERENCE < reference
            || WIDEST_SLACK < slack
            || length < 1
            || LONGEST_AUCTION < length,
        Refusal::BadTerms,
    )
}

// Bid.
pub fn bid_form(market: u32, member: u32, side: u32, base: u32) -> Result<(), Refusal>
    ensures { result ≡ form_of (bid_form market member side base) }
{
    member_form(member)?;
    market_form(market)?;
    side_form(side)?;
    refuse_if(base == 0, Refusal::BadAmountOrLimit)
}
