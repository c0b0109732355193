// Balances of sixteen members in four tokens. A call that cannot be done is refused, with the ledger unchanged.
#![tactic(auto)]

ghost use Rattle.std.specs.Prelude.{◌≡◌, ◌<◌};
ghost use Rattle.units.specs.Counts.{amount};
ghost use Rattle.ledger.specs.Balances.{row_of, cell_of, fresh_ledger};
ghost use Rattle.ledger.specs.Postings.{
  entry_code,
  entry_amount,
  balance_of,
  credit_row_of,
  debit_row_of,
  credit_of,
  debit_of,
};

use units::Amount;

// The last member and the last token.
const LAST_MEMBER: u32 = 15;

const LAST_TOKEN: u32 = 3;

// One member's balances, by token.
#[derive(Clone, Copy)]
pub struct Row {
    pub cells: [Amount; 4],
}

// Sixteen members' rows.
#[derive(Clone, Copy)]
pub struct Ledger {
    pub rows: [Row; 16],
}

// Why a ledger call is refused, each with the paper's number: there is no such place, or a balance would pass 4,294,967,295 (TooLarge) or is
// below the amount (TooSmall).
#[derive(Clone, Copy, PartialEq, Eq)]
pub enum Fault {
    NoSuchMember = 1,
    NoSuchToken = 2,
    TooLarge = 14,
    TooSmall = 19,
}

// What a ledger call answers: the balance, or why it is refused.
pub type Entry = Result<Amount, Fault>;

// All balances 0.
#[tactic(auto, unfolding(crate::specs::Balances::fresh_ledger))]
pub fn fresh() -> Ledger
    ensures { result ≡ fresh_ledger }
{
    let cells = [Amount(0); 4];
    let row = Row { cells };
    Ledger { rows: [row; 16] }
}

// The paper's number of an answer: 0 where the call is done. A function and no From: its clause equals the definition of this name.
pub fn entry_code(e: Entry) -> u32
    ensures { result ≡ entry_code e }
{
    match e {
        Ok(_) => 0,
        Err(fault) => fault as u32,
    }
}

// The balance that an answer tells, 0 where the call is refused.
pub fn entry_amount(e: Entry) -> u32
    ensures { result ≡ entry_amount e }
{
    e.map_or(0, |balance| balance.0)
}

// The row of a member. Public for the crates above, which ask for a member below 16.
#[tactic(auto, unfolding(crate::specs::Balances::row_of))]
pub fn row_of(l: Ledger, member: u32) -> Row
    requires { member < 16 }
    ensures { result ≡ row_of l member }
{
    l.rows[member as usize]
}

// A row's amount of a token. Public; it asks for a token below 4.
#[tactic(auto, unfolding(crate::specs::Balances::cell_of))]
pub fn cell_of(row: Row, token: u32) -> Amount
    requires { token < 4 }
    ensures { result ≡ amount (cell_of row token) }
{
    row.cells[token as usize]
}

// Adds to a token of a row.
#[tactic(auto, unfolding(crate::specs::Postings::credit_row_of, crate::specs::Balances::credited_row, crate::specs::Balances::with_cell, crate::specs::Balances::cell_of))]
pub fn credit_row(row: &mut Row, token: u32, n: Amount) -> Entry
    ensures { record { entry = result; row = row.new } ≡ credit_row_of row.old token n.0 }
{
    if LAST_TOKEN < token {
        return Err(Fault::NoSuchToken);
    }
    let t = token as usize;
    let sum = row.cells[t].checked_add(n).ok_or(Fault::TooLarge)?;
    row.cells[t] = sum;
    Ok(sum)
}

// Takes from a token of a row. It differs from credit_row in an operation and a fault: one function over closures would be no plainer.
#[tactic(auto, unfolding(crate::specs::Postings::debit_row_of, crate::specs::Balances::debited_row, crate::specs::Balances::with_cell, crate::specs::Balances::cell_of))]
pub fn debit_row(row: &mut Row, token: u32, n: Amount) -> Entry
    ensures { record { entry = result; row = row.new } ≡ debit_row_of row.old token n.0 }
{
    if LAST_TOKEN < token {
        return Err(Fault::NoSuchToken);
    }
    let t = token as usize;
    let rest = row.cells[t].checked_sub(n).ok_or(Fault::TooSmall)?;
    row.cells[t] = rest;
    Ok(rest)
}

// A member's balance of a token.
#[tactic(auto, unfolding(crate::specs::Postings::balance_of, crate::specs::Balances::balance_in))]
pub fn balance(l: Ledger, member: u32, token: u32) -> Entry
    ensures { result ≡ balance_of l member token }
{
    if LAST_MEMBER < member {
        return Err(Fault::NoSuchMember);
    }
    if LAST_TOKEN < token {
        return Err(Fault::NoSuchToken);
    }
    Ok(cell_of(row_of(l, member), token))
}

// Adds to a balance: the member's row taken out, changed and put back.
#[tactic(auto, using(crate::proofs::Rows::credit_by_row), unfolding(crate::specs::Postings::credit_of, crate::specs::Balances::row_of, crate::specs::Balances::with_row))]
pub fn credit(l: &mut Ledger, member: u32, token: u32, n: Amount) -> Entry
    ensures { record { entry = result; ledger = l.new } ≡ credit_of l.old member token n.0 }
{
    if LAST_MEMBER < member {
        return Err(Fault::NoSuchMember);
    }
    let m = member as usize;
    let mut row = l.rows[m];
    let entry = credit_row(&mut row, token, n);
    l.rows[m] = row;
    entry
}

// Takes from a balance. It differs from credit in an operation, as debit_row from credit_row.
#[tactic(auto, using(crate::proofs::Rows::debit_by_row), unfolding(crate::specs::Postings::debit_of, crate::specs::Balances::row_of, crate::specs::Balances::with_row))]
pub fn debit(l: &mut Ledger, member: u32, token: u32, n: Amount) -> Entry
    ensures { record { entry = result; ledger = l.new } ≡ debit_of l.old member token n.0 }
{
    if LAST_MEMBER < member {
        return Err(Fault::NoSuchMember);
    }
    let m = member as usize;
    let mut row = l.rows[m];
    let entry = debit_row(&mut row, token, n);
    l.rows[m] = row;
    entry
}
