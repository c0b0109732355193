// Runs the ledger alone, as compiled code. Its stored output is the second engine's (tests/stored).
//
// Standard input has lines as the day's are, numbered from 1, at most 1,048,576 bytes in all. The books are a ledger and, apart from it, one row; both begin fresh. A line is
// - 1,member,token,amount   credit
// - 2,member,token,amount   debit
// - 3,member,token          balance
// - 4,token,amount          credit_row, of the row
// - 5,token,amount          debit_row, of the row
// - 6                       the books made fresh
// For each line its number, the code and the amount that the call answers are printed, as 1,0,250 and byte 10. 6 answers 0 and 0; any other line, and one that is longer
// than 80 bytes or no numbers, answers 20 and 0. A refusal leaves the books.
#![tactic(auto)]

ghost use Rattle.std.specs.Prelude.{◌≡◌, ◌≤◌, length, Some};
ghost use Rattle.decimal.specs.Buffer.{put_at};
ghost use Rattle.fields.specs.Grammar.{line_numbers};
ghost use Rattle.postings.specs.Lines.{fresh_books, answered, posted_of, code_of, amount_of, posted_text};

use decimal::write_field;
use fields::{LONGEST_LINE, read_fields};
use ledger::{
    Entry, Ledger, Row, balance, credit, credit_row, debit, debit_row, entry_amount, entry_code,
    fresh, row_of,
};
use std::io::{self, Write};
use std::time::Clock;
use units::Amount;

// The longest answer: three numbers of ten digits, two commas and byte 10.
const LONGEST_ANSWER: usize = 33;

// A ledger, and one row apart from it.
#[derive(Clone, Copy)]
struct Books {
    ledger: Ledger,
    row: Row,
}

impl Books {
    // All balances 0.
    #[tactic(auto, unfolding(crate::specs::Lines::fresh_books))]
    fn fresh() -> Self
        ensures { result ≡ fresh_books }
    {
        let ledger = fresh();
        Books {
            ledger,
            row: row_of(ledger, 0),
        }
    }

    // The numbers of a line. None where they are none of the six.
    #[tactic(auto, unfolding(crate::specs::Lines::alone_of, crate::specs::Lines::two_of, crate::specs::Lines::three_of))]
    fn post_numbers(&mut self, numbers: &[u32]) -> Option<Entry>
        ensures { answered result self.new ≡ posted_of self.old (Some numbers.now) }
    {
        match numbers {
            [1, member, token, amount] => {
                Some(credit(&mut self.ledger, *member, *token, Amount(*amount)))
            }
            [2, member, token, amount] => {
                Some(debit(&mut self.ledger, *member, *token, Amount(*amount)))
            }
            [3, member, token] => Some(balance(self.ledger, *member, *token)),
            [4, token, amount] => Some(credit_row(&mut self.row, *token, Amount(*amount))),
            [5, token, amount] => Some(debit_row(&mut self.row, *token, Amount(*amount))),
            [6] => {
                *self = Books::fresh();
                Some(Ok(Amount(0)))
            }
            _ => None,
        }
    }

    // A line, without its byte 10. None where it is none of the six.
    #[tactic(auto, using(crate::proofs::Laws::posted_long, crate::proofs::Laws::posted_stops, crate::proofs::Laws::posted_read, crate::proofs::Laws::count_most))]
    fn post_line(&mut self, line: &[u8]) -> Option<Entry>
        ensures { answered result self.new ≡ posted_of self.old (line_numbers line.now) }
    {
        if LONGEST_LINE < line.len() {
            return None;
        }
        let f = read_fields(line, 0);
        if f.stop < line.len() {
            return None;
        }
        self.post_numbers(&f.values[..f.count])
    }
}

// ---- answers printed

// The number of what a line answers: 20 where it is none of the six.
fn code_of(posted: Option<Entry>) -> u32
    ensures { result ≡ code_of posted }
{
    posted.map_or(20, entry_code)
}

// The balance that a line answers, 0 where there is none.
fn amount_of(posted: Option<Entry>) -> u32
    ensures { result ≡ amount_of posted }
{
    posted.map_or(0, entry_amount)
}

// Writes a line's answer at the start of out and answers its length. No Display: its clause is put_at, in a lent buffer.
#[tactic(auto, using(decimal::proofs::Digits::digits_bound))]
fn write_posted(out: &mut [u8; LONGEST_ANSWER], number: u32, code: u32, amount: u32) -> usize
    ensures value { result ≡ length (posted_text number code amount) }
    ensures bound { result ≤ 33 }
    ensures out_after { out.new ≡ put_at out.old 0 (posted_text number code amount) }
{
    let after_number = write_field(out, 0, number, b',');
    let after_code = write_field(out, after_number, code, b',');
    write_field(out, after_code, amount, b'\n')
}

// ---- the whole

// The lines of the input, numbered from 1, the last one also where it has no byte 10. Answers whether all answers were written.
fn post_lines<W: Write>(clock: &impl Clock, to: &mut W, input: &[u8]) -> io::Result<()> {
    let mut books = Books::fresh();
    let mut out = [0; LONGEST_ANSWER];
    for (number, piece) in (1..=u32::MAX).zip(input.split_inclusive(|b| *b == b'\n')) {
        let posted = books.post_line(piece.strip_suffix(b"\n").unwrap_or(piece));
        let used = write_posted(&mut out, number, code_of(posted), amount_of(posted));
        stdio::write_all(clock, to, &out[..used])?;
    }
    Ok(())
}

// A longer input, and a read or write that fails, are told on standard error and end the program.
fn main(rt: HostRuntime) {
    let mut told = rt.stderr();
    let mut buf = stdio::input_buffer();
    let count = stdio::read_input(
        &rt,
        &mut rt.stdin(),
        &mut told,
        &mut buf,
        b"postings: cannot read",
        b"postings: the input has more than 1,048,576 bytes\n",
    );
    if let Err(e) = post_lines(&rt, &mut rt.stdout(), buf.get(..count).unwrap_or(&[])) {
        let _ = stdio::fail(&mut told, b"postings: cannot write", e);
    }
}
