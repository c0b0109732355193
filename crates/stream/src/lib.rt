// A day's bytes taken as they come, in pieces of any size.
// Each asks that its state is reachable: hosts hold a plain Exchange or Day, and a type with the invariant would ask more of them.
#![tactic(auto)]

ghost use Rattle.std.specs.Prelude.{◌≡◌, ◌≤◌, ◌<◌, length, take};
ghost use Rattle.decimal.specs.Buffer.{put_into, put_count};
ghost use Rattle.lines.specs.AnswerText.{longest_answer};
ghost use Rattle.lines.specs.Kept.{kept_bytes};
ghost use Rattle.model.specs.Run.{Reachable};
ghost use Rattle.replay.specs.Days.{last_line};
ghost use Rattle.replay.specs.Pieces.{stream_of, FedBy, last_bytes};
ghost use Rattle.stream.specs.Lines.{LineEnded, Unbroken};

use in_place::whole_lines;
use lines::answer::LONGEST_ANSWER;
use lines::call::line_end;
use lines::kept::{KEPT_BYTES, keep};
use replay::day::{Day, Fed, LAST_LINE};

// Takes bytes of the input and writes the answers of the lines that end in them at the start of out: what is answered is that part of the
// whole day's text. Where no line ends in the input it takes it all; else at least the line that ends first, or nothing where its answer does not fit (21).
pub fn feed(d: Day, input: &[u8], out: &mut [u8]) -> Fed
    requires { Reachable d.exchange }
    ensures { FedBy d input.now out.old out.new result }
{
    if LAST_LINE <= d.done {
        return Fed {
            day: d,
            used: input.len(),
            wrote: 0,
        };
    }
    if 0 < d.len {
        return one_line(d, input, out);
    }
    let r = whole_lines(d, input, out);
    // no line lies whole in the input, or less is lent than any answer may need: one line, measured exactly
    if r.used == 0 {
        return one_line(d, input, out);
    }
    r
}

// Takes the last line where it has bytes but no byte 10, as if that byte had come: used is then 1, or 0 where its answer does not fit (21).
pub fn finish(d: Day, out: &mut [u8]) -> Fed
    requires { Reachable d.exchange }
    ensures { FedBy d (last_bytes (stream_of d).line) out.old out.new result }
{
    if d.len == 0 {
        return Fed {
            day: d,
            used: 0,
            wrote: 0,
        };
    }
    let end = [b'\n'];
    feed(d, &end, out)
}

// Takes the input's bytes up to the end of the line that has begun, and answers it where it ends; nothing where its answer does not fit.
#[tactic(auto, using(lines::proofs::CallLaws::line_within))]
fn one_line(d: Day, input: &[u8], out: &mut [u8]) -> Fed
    requires reachable { Reachable d.exchange }
    requires done_lt_last_line { d.done < last_line }
    ensures { FedBy d input.now out.old out.new result }
{
    let end = line_end(input, 0);
    let kept = keep(d.line, d.len.min(KEPT_BYTES), input, end);
    // a literal takes an array from a variable alone
    let line = kept.line;
    let begun = Day {
        len: kept.len,
        line,
        ..d
    };
    if end == input.len() {
        return Fed {
            day: begun,
            used: end,
            wrote: 0,
        };
    }
    let mut text = [0; LONGEST_ANSWER];
    let ended = end_line(Day { len: 0, ..begun }, kept.len, &mut text);
    let wrote = put_text(out, &text[..ended.wrote]);
    // an answer line is never empty: out is too short for it
    if wrote == 0 {
        return Fed {
            day: d,
            used: 0,
            wrote: 0,
        };
    }
    Fed {
        day: ended.day,
        used: end + 1,
        wrote,
    }
}

// The first len bytes of the day's line taken as a line that ends, with byte 10 after them.
fn end_line(d: Day, len: usize, out: &mut [u8]) -> Fed
    requires reachable { Reachable d.exchange }
    requires done_lt_last_line { d.done < last_line }
    requires len_value { d.len ≡ 0 }
    requires len_le_kept_bytes { len ≤ kept_bytes }
    requires longest_answer_in_bounds { longest_answer ≤ length out.old }
    ensures { LineEnded d (take len d.line) out.new result }
{
    // borrowed, d would be copied once more on the stack
    let begun = d.line;
    let line = unbroken(&begun[..len]);
    let n = line.len();
    let mut ended = [0; 82];
    ended[..n].copy_from_slice(line);
    ended[n] = b'\n';
    whole_lines(d, &ended[..n + 1], out)
}

// A line's text, or none of it where byte 10 is among its bytes, as on a day of the host's own making: it is no call then, as no bytes are.
#[tactic(auto, using(crate::proofs::Ended::broken))]
fn unbroken(text: &[u8]) -> &[u8]
    ensures { Unbroken text.now result.now }
{
    if line_end(text, 0) < text.len() {
        return &text[..0];
    }
    text
}

// Writes a text at the start of out and answers its length: 0, with out unchanged, where out is too short.
// 0 and no Option: its clause equals put_count.
#[tactic(auto, unfolding(decimal::specs::Buffer::put_at, decimal::specs::Buffer::put_into, decimal::specs::Buffer::put_count))]
pub fn put_text(out: &mut [u8], text: &[u8]) -> usize
    ensures value { result ≡ put_count out.old text.now }
    ensures out_after { out.new ≡ put_into out.old text.now }
{
    let n = text.len();
    if out.len() < n {
        return 0;
    }
    out[..n].copy_from_slice(text);
    n
}
