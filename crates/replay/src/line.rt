// One line taken.
// Each asks that its state is reachable: hosts hold a plain Exchange or Day, and a type with the invariant would ask more of them.
ghost use Rattle.std.specs.Prelude.{◌≡◌, ◌≤◌, length};
ghost use Rattle.decimal.specs.Buffer.{put_into};
ghost use Rattle.model.specs.Run.{Reachable};
ghost use Rattle.lines.specs.AnswerText.{longest_answer};
ghost use Rattle.replay.specs.Lines.{outcome_of, line_text, taken_of};

use exchange::apply;
use lines::answer::write_answer;
use lines::call::read_call;
use model::answer::{Answer, Refusal};
use model::call::Call;
use model::state::Exchange;

// A line's answer, and how many bytes its answer line took.
// taken_of gives it; used is 0 where the answer is 21.
#[derive(Clone, Copy)]
pub struct Answered {
    pub answer: Answer,
    pub used: usize,
}

// What is answered, and the state after it.
// taken_of gives it.
#[derive(Clone, Copy)]
pub struct Taken {
    pub answered: Answered,
    pub exchange: Exchange,
}

// What a line that was read does to a state lent to it: its call, or 20, which leaves the state.
pub fn apply_reading(x: &mut Exchange, reading: Option<Call>) -> Answer
    requires { Reachable x.old }
    ensures { record { answer = result; exchange = x.new } ≡ outcome_of x.old reading }
{
    let c = reading.ok_or(Refusal::MalformedLine)?;
    apply(x, c)
}

// Takes one line, without its byte 10, and writes its answer line at the start of out. 21 where out is too short: the state and out stay
// as they are.
#[tactic(auto, using(crate::proofs::LineRun::line_outcome_is, crate::proofs::LineRun::take_put, crate::proofs::LineRun::take_bound, crate::proofs::LineRun::take_short, crate::proofs::LineRun::take_fits))]
pub fn take_line(x: Exchange, number: u32, line: &[u8], out: &mut [u8]) -> Taken
    requires { Reachable x }
    ensures value { result ≡ taken_of x number line.now (length out.old) }
    ensures out_after { out.new ≡ put_into out.old (line_text x number line.now) }
    ensures line_len_bound { length (line_text x number line.now) ≤ longest_answer }
{
    let mut exchange = x;
    let answer = apply_reading(&mut exchange, read_call(line));
    let used = write_answer(out, number, answer);
    if used == 0 {
        return Taken {
            answered: Answered {
                answer: Err(Refusal::BufferTooShort),
                used: 0,
            },
            exchange: x,
        };
    }
    Taken {
        answered: Answered { answer, used },
        exchange,
    }
}
