// The state lent to the call: a host keeps one exchange; each function takes it by &mut, makes the call by value and stores the state after it.
// Document 01 asks for this form over the calls by value, and document 02 (L5) for the list's.
// Each asks that its state is reachable: hosts hold a plain Exchange, and a type with the invariant would ask more of them.
#![tactic(auto)]

ghost use Rattle.std.specs.Prelude.{◌≡◌, ◌≤◌, length};
ghost use Rattle.decimal.specs.Buffer.{put_into};
ghost use Rattle.lines.specs.AnswerText.{longest_answer};
ghost use Rattle.model.specs.Run.{Reachable, step_of};
ghost use Rattle.model.specs.OrderLists.{orders_of};
ghost use Rattle.replay.specs.Lines.{line_text, taken_of};

use exchange::step;
use model::answer::Answer;
use model::call::Call;
use model::orders::{AnswerPlace, OrderFields};
use model::state::Exchange;
use order_list::place_orders;
use replay::line::{Answered, take_line};

// One call: its answer. x is then the state after it.
pub fn step_lent(x: &mut Exchange, c: Call) -> Answer
    requires { Reachable x.old }
    ensures { (result ≡ (step_of x.old c).answer) × (x.new ≡ (step_of x.old c).exchange) }
{
    let o = step(*x, c);
    *x = o.exchange;
    o.answer
}

// One line, without its byte 10: its answer line is at the start of out, x is the state after it. 21 where out is too short: x and out stay
// as they are.
pub fn take_line_lent(x: &mut Exchange, number: u32, line: &[u8], out: &mut [u8]) -> Answered
    requires { Reachable x.old }
    ensures { (result ≡ (taken_of x.old number line.now (length out.old)).answered)
        × (x.new ≡ (taken_of x.old number line.now (length out.old)).exchange)
        × (out.new ≡ put_into out.old (line_text x.old number line.now))
        × (length (line_text x.old number line.now) ≤ longest_answer) }
{
    let t = take_line(*x, number, line, out);
    *x = t.exchange;
    t.answered
}

// A list of orders: the call's own answer. The orders' answers are in their places, x is the state after them. 22 where the lists differ in length or have
// more than 64 places: x and answers stay as they are.
pub fn place_orders_lent(
    x: &mut Exchange,
    list: &[OrderFields],
    answers: &mut [AnswerPlace],
) -> Answer
    requires { Reachable x.old }
    ensures { (result ≡ (orders_of x.old list.now answers.old).answer)
        × (x.new ≡ (orders_of x.old list.now answers.old).exchange)
        × (answers.new ≡ (orders_of x.old list.now answers.old).answers) }
{
    let o = place_orders(*x, list, answers);
    *x = o.exchange;
    o.answer
}
