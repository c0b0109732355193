// A host, as an example: it keeps one exchange and lends it to every call, and to the call that takes a line.
#![tactic(auto)]

ghost use Rattle.std.specs.Prelude.{◌≡◌, length};
ghost use Rattle.decimal.specs.Buffer.{put_into};
ghost use Rattle.replay.specs.Lines.{line_text};
ghost use Rattle.host.specs.Serving.{state_after_calls, served_of};

use lent::{step_lent, take_line_lent};
use model::answer::Answer;
use model::call::Call;
use model::state::{Exchange, fresh};
use replay::line::Answered;

// What the host was answered, and the state that it ends with: served_of gives it.
#[derive(Clone, Copy)]
pub struct Served {
    pub first: Answer,
    pub second: Answer,
    pub third: Answered,
    pub exchange: Exchange,
}

// A fresh exchange, lent to two calls and then to a line, the host's first.
#[tactic(auto, using(model::specs::Run::at_first, model::specs::Run::after_call), unfolding(crate::specs::Serving::served_of))]
pub fn serve(a: Call, b: Call, line: &[u8], out: &mut [u8]) -> Served
    ensures { (result ≡ served_of a b line.now (length out.old))
        × (out.new ≡ put_into out.old (line_text (state_after_calls a b) 1 line.now)) }
{
    let mut exchange = fresh();
    let first = step_lent(&mut exchange, a);
    let second = step_lent(&mut exchange, b);
    let third = take_line_lent(&mut exchange, 1, line, out);
    Served {
        first,
        second,
        third,
        exchange,
    }
}
