// Runs the three lent forms as compiled code, over one exchange. Its stored output is the second engine's (tests/stored).
//
// Standard input has lines as the day's are, numbered from 1, at most 1,048,576 bytes in all. Of each line the first that applies:
// - It is 0 and one number m, as 0,m: the orders gathered so far are placed by place_orders_lent, with m places, at most 65. Before the call place i, from
//   0 on, holds an acceptance with i and 4294967295. The call's own answer is printed as an answer line, and then every place, with its number i. After it, refused or
//   not, no order is gathered.
// - It is an order, and fewer than 65 are gathered: it is gathered, and nothing is printed.
// - Its number is even, and it is a call: it is made by step_lent, and its answer line is printed.
// - It is taken by take_line_lent, into 35 bytes; where its number divided by 8 leaves 1, into as many as the quotient leaves divided by 32. The answer line is printed;
//   where it does not fit, one that tells 21.
#![tactic(auto)]

ghost use Rattle.std.specs.Prelude.{◌≡◌, ◌<◌, ◌≤◌, ◌↔◌, List, [], ◌∷◌, ◌++◌, length, take, IsTrue};
ghost use Rattle.decimal.specs.Buffer.{put_into};
ghost use Rattle.model.specs.Run.{Reachable, step_of};
ghost use Rattle.model.specs.State.{fresh_exchange};
ghost use Rattle.model.specs.OrderLists.{orders_of};
ghost use Rattle.model.specs.declared.state.Exchange.{Exchange};
ghost use Rattle.model.specs.declared.orders.OrderFields.{OrderFields};
ghost use Rattle.replay.specs.Lines.{line_text, taken_of};

use fields::{LONGEST_LINE, read_fields};
use lent::{place_orders_lent, step_lent, take_line_lent};
use lines::answer::{LONGEST_ANSWER, write_answer};
use lines::call::read_call;
use model::answer::Answer;
use model::call::Call;
use model::orders::{AnswerPlace, OrderFields};
use model::state::{Exchange, fresh};
use replay::line::Answered;
use std::io::{self, Write};
use std::marker::Model;
use std::time::Clock;

// One more than an order list may have.
const MOST_PLACES: usize = 65;

// ---- answers printed

// Where the answer lines go.
#[derive(Drop)]
struct Printer<'a, C, W> {
    clock: &'a C,
    to: &'a mut W,
}

impl<C: Clock, W: Write> Printer<'_, C, W> {
    // An error of the write is the caller's, as with all that print.
    fn print_text(&mut self, text: &[u8]) -> io::Result<()> {
        stdio::write_all(self.clock, self.to, text)
    }

    // An answer line.
    #[tactic(auto, using(decimal::proofs::Put::count_within))]
    fn print(&mut self, number: u32, answer: Answer) -> io::Result<()> {
        let mut out = [0; LONGEST_ANSWER];
        let used = write_answer(&mut out, number, answer);
        self.print_text(&out[..used])
    }

    // The places, numbered from 0.
    fn print_places(&mut self, places: &[AnswerPlace]) -> io::Result<()> {
        for (number, place) in (0..=u32::MAX).zip(places) {
            self.print(number, place.answer)?;
        }
        Ok(())
    }
}

// ---- one line

// The places that a line asks for, where it is 0 and one number.
fn places_asked(line: &[u8]) -> Option<u32> {
    if LONGEST_LINE < line.len() {
        return None;
    }
    let f = read_fields(line, 0);
    if f.stop < line.len() || f.count != 2 || f.values[0] != 0 {
        return None;
    }
    Some(f.values[1])
}

// The places before a list call: each tells its number, so that one that the call leaves is seen.
fn fresh_places() -> [AnswerPlace; MOST_PLACES] {
    let mut places = [AnswerPlace {
        answer: Ok((0, u32::MAX)),
    }; MOST_PLACES];
    for (number, place) in (0..=u32::MAX).zip(&mut places) {
        place.answer = Ok((number, u32::MAX));
    }
    places
}

// The bytes lent for a line's answer: every eighth line from the first on has fewer than the longest takes.
fn room_of(number: u32) -> usize
    ensures { result ≤ 35 }
{
    if number % 8 == 1 {
        (number / 8 % 32) as usize
    } else {
        LONGEST_ANSWER
    }
}

// ---- the host

// The exchange, and the orders gathered for the next list call: the first count of the list.
// ArrayVec's blank would need an OrderFields by default, which means nothing in the model; the bound stands once, in the invariant.
#[derive(Drop)]
struct Host {
    exchange: Exchange,
    count: usize,
    list: [OrderFields; MOST_PLACES],
}

// Contracts see the exchange and the orders gathered.
impl Model for Host {
    ghost Value = { Exchange × List OrderFields };

    ghost view = { λ h. (h.exchange, take h.count h.list) };

    ghost invariant = { λ h. Reachable h.exchange × (h.count ≤ 65) × (length h.list ≡ 65) };
}

impl Host {
    // A fresh exchange, and no order gathered.
    fn new() -> Self
        ensures { result ≡ (fresh_exchange, []) }
    {
        let none = OrderFields {
            ticket: 0,
            member: 0,
            market: 0,
            side: 0,
            limit: 0,
            amount: 0,
        };
        Host {
            exchange: fresh(),
            count: 0,
            list: [none; MOST_PLACES],
        }
    }

    // Whether no order more can be gathered.
    fn is_full(&self) -> bool
        ensures { IsTrue result ↔ (65 ≤ length self.now.1) }
    {
        self.count == MOST_PLACES
    }

    // One more order gathered.
    fn gather(&mut self, order: OrderFields)
        requires { length self.old.1 < 65 }
        ensures { self.new ≡ (self.old.0, self.old.1 ++ order ∷ []) }
    {
        self.list[self.count] = order;
        self.count += 1;
    }

    // A list call with the orders gathered. None is gathered after it.
    fn place_gathered(&mut self, places: &mut [AnswerPlace]) -> Answer
        ensures answer { result ≡ (orders_of self.old.0 self.old.1 places.old).answer }
        ensures places { places.new ≡ (orders_of self.old.0 self.old.1 places.old).answers }
        ensures state { self.new ≡ ((orders_of self.old.0 self.old.1 places.old).exchange, []) }
    {
        let answer = place_orders_lent(&mut self.exchange, &self.list[..self.count], places);
        self.count = 0;
        answer
    }

    // A call, without its line.
    fn make_call(&mut self, c: Call) -> Answer
        ensures call { record { answer = result; exchange = self.new.0 } ≡ step_of self.old.0 c }
        ensures gathered { self.new.1 ≡ self.old.1 }
    {
        step_lent(&mut self.exchange, c)
    }

    // A line, whether it reads as a call or not.
    fn make_line(&mut self, number: u32, line: &[u8], out: &mut [u8]) -> Answered
        ensures line { record { answered = result; exchange = self.new.0 } ≡ taken_of self.old.0 number line.now (length out.old) }
        ensures out_after { out.new ≡ put_into out.old (line_text self.old.0 number line.now) }
        ensures within { result.used ≤ length out.new }
        ensures gathered { self.new.1 ≡ self.old.1 }
    {
        take_line_lent(&mut self.exchange, number, line, out)
    }
}

// ---- the whole

// A line, without its byte 10, by the first of the four that applies.
fn take_one<C: Clock, W: Write>(
    host: &mut Host,
    to: &mut Printer<'_, C, W>,
    number: u32,
    line: &[u8],
) -> io::Result<()> {
    if let Some(asked) = places_asked(line) {
        let mut places = fresh_places();
        let places = &mut places[..(asked as usize).min(MOST_PLACES)];
        let answer = host.place_gathered(places);
        to.print(number, answer)?;
        return to.print_places(places);
    }
    match read_call(line) {
        Some(
            Call::Order {
                ticket,
                member,
                market,
                side,
                limit,
                amount,
            },
        ) if !host.is_full() => {
            host.gather(OrderFields {
                ticket,
                member,
                market,
                side,
                limit,
                amount,
            });
            Ok(())
        }
        Some(c) if number % 2 == 0 => {
            let answer = host.make_call(c);
            to.print(number, answer)
        }
        _ => {
            let mut out = [0; LONGEST_ANSWER];
            let out = &mut out[..room_of(number)];
            let answered = host.make_line(number, line, out);
            // where the answer line does not fit in what is lent (21), one of its own
            if answered.used == 0 {
                to.print(number, answered.answer)
            } else {
                to.print_text(&out[..answered.used])
            }
        }
    }
}

// The lines of the input, numbered from 1, the last one also where it has no byte 10.
fn take_lines<C: Clock, W: Write>(to: &mut Printer<'_, C, W>, input: &[u8]) -> io::Result<()> {
    let mut host = Host::new();
    for (number, piece) in (1..=u32::MAX).zip(input.split_inclusive(|b| *b == b'\n')) {
        take_one(
            &mut host,
            to,
            number,
            piece.strip_suffix(b"\n").unwrap_or(piece),
        )?;
    }
    Ok(())
}

// A longer input, and a read or write that fails, are told on standard error and end the program.
fn main(rt: HostRuntime) {
    let mut told = rt.stderr();
    let mut buf = stdio::input_buffer();
    let count = stdio::read_input(
        &rt,
        &mut rt.stdin(),
        &mut told,
        &mut buf,
        b"lending: cannot read",
        b"lending: the input has more than 1,048,576 bytes\n",
    );
    let mut to = Printer {
        clock: &rt,
        to: &mut rt.stdout(),
    };
    if let Err(e) = take_lines(&mut to, buf.get(..count).unwrap_or(&[])) {
        let _ = stdio::fail(&mut told, b"lending: cannot write", e);
    }
}
