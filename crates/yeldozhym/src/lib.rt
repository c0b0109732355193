// What hosts in C and in Rust call: a whole day, bytes in and bytes out, and a call's line written.
#![tactic(auto)]

ghost use Rattle.std.specs.Prelude.{◌≡◌, ◌∷◌, ◌≤◌, length};
ghost use Rattle.decimal.specs.Buffer.{put_at, put_into, put_from};
ghost use Rattle.lines.specs.AnswerText.{header};
ghost use Rattle.lines.specs.CallLines.{call_of};
ghost use Rattle.call_writer.specs.Writing.{written_of, written_length, line_of_reading, put_of};
ghost use Rattle.replay.specs.Days.{day_of};

use call_writer::{LinePut, put_call_of_fields, write_call_of_fields};
use lines::answer::header;
use replay::day::fresh_day;
use stream::{feed, finish};

// The header's length.
const HEADER_BYTES: usize = 23;

// Works the day that input holds and writes its text, the header and an answer line for each line, at the start of out: all of it where it
// fits, and nothing where it does not. Answers the length of that text, so that it was written exactly where out is at least as long.
#[unsafe(no_mangle)]
#[tactic(auto, using(decimal::proofs::Put::put_at_lem, decimal::proofs::Put::put_short))]
pub extern "C" fn yeldozhym_day(input: &[u8], out: &mut [u8]) -> usize
    ensures value { result ≡ length (day_of input.now) }
    ensures out_after { out.new ≡ put_into out.old (day_of input.now) }
{
    let room = day_room(input);
    if room <= out.len() {
        write_day(input, out);
    }
    room
}

// Writes the line of the call that a kind number and fields are, with its byte 10, into out from a place on. Answers its length; where it does not
// fit there (21), or they are no call's (20), 0, and out is unchanged.
// 0 and no Option: its clause equals written_length, and C calls it. Two exports: C calls both.
#[unsafe(no_mangle)]
pub extern "C" fn yeldozhym_call_line(
    kind: u32,
    fields: &[u32],
    out: &mut [u8],
    place: usize,
) -> usize
    ensures value { result ≡ written_length (written_of (length out.old) place (line_of_reading (call_of («kind» ∷ fields.now)))) }
    ensures out_after { out.new ≡ put_from out.old place (line_of_reading (call_of («kind» ∷ fields.now))) }
{
    write_call_of_fields(kind, fields, out, place)
}

// The same with the code beside the length, which tells the two causes of 0 apart: 0 and the length; 20 and 0 where they are no call's, be there room or
// not; 21 and 0 where the line does not fit.
// Two exports: C calls both.
#[unsafe(no_mangle)]
pub extern "C" fn yeldozhym_put_call(
    kind: u32,
    fields: &[u32],
    out: &mut [u8],
    place: usize,
) -> LinePut
    ensures value { result ≡ put_of (length out.old) place (call_of («kind» ∷ fields.now)) }
    ensures out_after { out.new ≡ put_from out.old place (line_of_reading (call_of («kind» ∷ fields.now))) }
{
    put_call_of_fields(kind, fields, out, place)
}

// The length of the day's text. The answers go to a buffer that is used again for each part of them. The loop is that of write_day but for where answers go:
// one function for both would take that as a closure that lends a part of a buffer, and its contract is longer than the loop. Both count the place in the
// input: only feed's answer tells how much it moves, so no iterator steps here.
#[tactic(auto, using(crate::proofs::Turns::day_reachable))]
fn day_room(input: &[u8]) -> usize
    ensures { result ≡ length (day_of input.now) }
{
    // more than a hundred answer lines
    let mut scratch = [0; 4096];
    let mut day = fresh_day();
    let mut from = 0;
    let mut room = HEADER_BYTES;
    while from < input.len() {
        let fed = feed(day, &input[from..], &mut scratch);
        day = fed.day;
        room += fed.wrote;
        from += fed.used;
    }
    let last = finish(day, &mut scratch);
    room + last.wrote
}

// Writes the day's text at the start of out. It asks for the room.
#[tactic(auto, using(crate::proofs::DayLaws::header_fits, crate::proofs::Turns::day_reachable, crate::proofs::Turns::room, crate::proofs::Turns::all_written))]
fn write_day(input: &[u8], out: &mut [u8])
    requires { length (day_of input.now) ≤ length out.old }
    ensures { out.new ≡ put_at out.old 0 (day_of input.now) }
{
    write_header(out);
    let mut day = fresh_day();
    let mut from = 0;
    let mut at = HEADER_BYTES;
    while from < input.len() {
        let fed = feed(day, &input[from..], &mut out[at..]);
        day = fed.day;
        at += fed.wrote;
        from += fed.used;
    }
    finish(day, &mut out[at..]);
}

// Writes the header at the start of out. It asks for the room.
#[tactic(auto, unfolding(decimal::specs::Buffer::put_at))]
fn write_header(out: &mut [u8])
    requires { length header ≤ length out.old }
    ensures { out.new ≡ put_at out.old 0 header }
{
    out[..HEADER_BYTES].copy_from_slice(&header());
}
