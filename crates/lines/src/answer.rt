// Answer lines into a lent buffer.
ghost use Rattle.std.specs.Prelude.{◌≡◌, ◌+◌, ◌≤◌, leb, length};
ghost use Rattle.decimal.specs.Buffer.{put_at, put_into, put_count};
ghost use Rattle.model.specs.Answers.{answer_line};
ghost use Rattle.lines.specs.AnswerText.{longest_answer, accepted_text, refused_text};
ghost use Rattle.lines.specs.AnswerText.{header};

use decimal::{digit_count, write_field};
use model::answer;
use model::answer::Answer;

pub const LONGEST_ANSWER: usize = 35;

// Whether the answer line fits in room bytes; none is longer than LONGEST_ANSWER. Digits are counted only where there is less
// room than that.
fn has_room(room: usize, number: u32, a: Answer) -> bool
    ensures value { result ≡ leb (length (answer_line number a)) room }
    ensures a_len_bound { length (answer_line number a) ≤ longest_answer }
{
    let code = answer::code(a);
    let first = answer::first(a);
    let second = answer::second(a);
    if LONGEST_ANSWER <= room {
        return true;
    }
    let digits = digit_count(number) + digit_count(code) + digit_count(first) + digit_count(second);
    digits + 4 <= room
}

// Writes what follows the number and its comma in the line of an acceptance, from index at on, and answers the index after it. It
// asks for that room. Single bytes are stored here and below: copied from a slice, they take 1.9 in 100 instructions of a line of the day more.
fn write_accepted(out: &mut [u8], at: usize, first: u32, second: u32) -> usize
    requires { at + length (accepted_text first second) ≤ length out.old }
    ensures value { result ≡ at + length (accepted_text first second) }
    ensures out_after { out.new ≡ put_at out.old at (accepted_text first second) }
{
    out[at] = b'0';
    out[at + 1] = b',';
    let next = write_field(out, at + 2, first, b',');
    write_field(out, next, second, b'\n')
}

// The same for a refusal.
fn write_refused(out: &mut [u8], at: usize, code: u32) -> usize
    requires { at + length (refused_text code) ≤ length out.old }
    ensures value { result ≡ at + length (refused_text code) }
    ensures out_after { out.new ≡ put_at out.old at (refused_text code) }
{
    let next = write_field(out, at, code, b',');
    out[next] = b'0';
    out[next + 1] = b',';
    out[next + 2] = b'0';
    out[next + 3] = b'\n';
    next + 4
}

// Writes the answer line at the start of out and answers its length: 0, with out unchanged, where out is too short. None
// is longer than LONGEST_ANSWER. 0 and no Option: its clause equals put_count.
pub fn write_answer(out: &mut [u8], number: u32, a: Answer) -> usize
    ensures value { result ≡ put_count out.old (answer_line number a) }
    ensures out_after { out.new ≡ put_into out.old (answer_line number a) }
    ensures a_len_bound { length (answer_line number a) ≤ longest_answer }
{
    if !has_room(out.len(), number, a) {
        return 0;
    }
    let next = write_field(out, 0, number, b',');
    match a {
        Ok((first, second)) => write_accepted(out, next, first, second),
        Err(why) => write_refused(out, next, answer::refusal_code(why)),
    }
}

// The line before the first answer.
pub fn header() -> [u8; 23]
    ensures { result ≡ header }
{
    *b"line,code,first,second\n"
}
