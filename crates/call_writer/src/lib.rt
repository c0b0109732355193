// The call writer: a call's line with its byte 10, into a lent buffer at a place.
#![tactic(auto)]

ghost use Rattle.std.specs.Prelude.{◌≡◌, [], ◌∷◌, ◌++◌, ◌+◌, ◌≤◌, ◌<◌, length};
ghost use Rattle.decimal.specs.Buffer.{put_at, put_from};
ghost use Rattle.lines.specs.CallLines.{call_of};
ghost use Rattle.lines.specs.CallText.{line_of_numbers, call_line};
ghost use Rattle.call_writer.specs.Writing.{written_of, written_code, written_length, LineBounded, line_of_reading, told_of, put_of};
ghost use Rattle.call_writer.specs.RoundTrips.{ReadAgain};

use call_numbers::{call_of_fields, numbers_of};
use decimal::{digit_count, write_field};
use model::call::Call;

// No call's line is longer, its byte 10 included.
pub const LONGEST_CALL: usize = 68;

// What is told where plain numbers are written as a call's line: 0 and the line's length; 20 and 0 where they are no call's; 21 and 0 where the line
// does not fit. C takes it so: a flag with a value beside it.
#[repr(C)]
#[derive(Clone, Copy)]
pub struct LinePut {
    pub code: u32,
    pub length: usize,
}

// The paper's number of a call written: 0 where the line was written, whose length is told, and 21 where it was not.
// A function and no From: its clause equals the definition of this name.
pub fn written_code(w: Option<usize>) -> u32
    ensures { result ≡ written_code w }
{
    match w {
        Some(_) => 0,
        None => 21,
    }
}

// The bytes written, byte 10 among them.
pub fn written_length(w: Option<usize>) -> usize
    ensures { result ≡ written_length w }
{
    w.unwrap_or(0)
}

// How long the line of some numbers is, without its byte 10: the first, and each other one with the comma before it; eleven bytes at most for each of eight.
fn line_size(numbers: &[u32]) -> usize
    requires { (0 < length numbers.now) × (length numbers.now ≤ 8) }
    ensures value { result ≡ length (line_of_numbers numbers.now) }
    ensures upper_bound { result ≤ 88 }
{
    let mut size = numbers.len() - 1;
    for n in numbers {
        size = size + digit_count(*n);
    }
    size
}

// Writes the line of some numbers, with its byte 10, from index at on. It asks for that room. No Display: its clause is put_at, in a lent buffer.
fn write_numbers(out: &mut [u8], at: usize, numbers: &[u32])
    requires count_nonzero { (0 < length numbers.now) × (length numbers.now ≤ 8) }
    requires values_in_bounds { at + length (line_of_numbers numbers.now) + 1 ≤ length out.old }
    ensures { out.new ≡ put_at out.old at (line_of_numbers numbers.now ++ (10 ∷ [])) }
{
    let last = numbers.len() - 1;
    let mut next = at;
    for n in &numbers[..last] {
        next = write_field(out, next, *n, b',');
    }
    write_field(out, next, numbers[last], b'\n');
}

// Writes the call's line with its byte 10 into out from the place at on, and tells its length. Where the place is past the end of out or what
// follows it is too short: 21, and out is unchanged. A line that was written is read there as the call, and none is longer than LONGEST_CALL.
pub fn write_call(out: &mut [u8], at: usize, call: Call) -> Option<usize>
    ensures value { result ≡ written_of (length out.old) at (call_line call) }
    ensures out_after { out.new ≡ put_from out.old at (call_line call) }
    ensures read_again { ReadAgain out.new at call result }
    ensures line_bounded { LineBounded call }
{
    let c = numbers_of(call);
    let numbers = &c.values[..c.count];
    let size = line_size(numbers) + 1;
    if out.len().saturating_sub(at) < size {
        return None;
    }
    write_numbers(out, at, numbers);
    Some(size)
}

// A call's code and length.
fn line_told(w: Option<usize>) -> LinePut
    ensures { result ≡ told_of w }
{
    LinePut {
        code: written_code(w),
        length: written_length(w),
    }
}

// The same on plain numbers, a kind number and fields: the line of the call that they are. Where they are no call's: 20, be there room or not, since
// there is no line to fit, and out is unchanged.
pub fn put_call_of_fields(kind: u32, fields: &[u32], out: &mut [u8], at: usize) -> LinePut
    ensures value { result ≡ put_of (length out.old) at (call_of («kind» ∷ fields.now)) }
    ensures out_after { out.new ≡ put_from out.old at (line_of_reading (call_of («kind» ∷ fields.now))) }
{
    match call_of_fields(kind, fields) {
        Some(call) => line_told(write_call(out, at, call)),
        // The code is C's (LinePut).
        None => LinePut {
            code: 20,
            length: 0,
        },
    }
}

// The same, told by the length alone; where the line does not fit, or the numbers are no call's (20), 0, and out is unchanged.
// 0 and no Option: its clause equals written_length; C calls it as yeldozhym_call_line.
pub fn write_call_of_fields(kind: u32, fields: &[u32], out: &mut [u8], at: usize) -> usize
    ensures value { result ≡ written_length (written_of (length out.old) at (line_of_reading (call_of («kind» ∷ fields.now)))) }
    ensures out_after { out.new ≡ put_from out.old at (line_of_reading (call_of («kind» ∷ fields.now))) }
{
    match call_of_fields(kind, fields) {
        Some(call) => written_length(write_call(out, at, call)),
        None => 0,
    }
}
