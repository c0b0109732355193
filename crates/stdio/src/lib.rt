// Reads and writes that try again where the system asks for it. A call that a signal interrupts (EINTR) is tried again at once, one on a
// descriptor that does not block (EAGAIN) after a wait. Any other error is the caller's. A proved loop has to end, so one that only waits
// has a number of turns that no run uses up.
#![tactic(auto)]

ghost use Rattle.std.specs.Prelude.{◌≡◌, ◌<◌, ◌≤◌, ◌-◌, length, replicate, take, false, IfOk, IfErr, IfSome, MatchResult, OnOk};
ghost use Rattle.std.specs.Io.KnownBytes.{Appends, Consumes, IsAtEnd, ReadConsumes, WriteAppends};
ghost use Rattle.stdio.specs.Failing.{TellsFailure};
ghost use Rattle.stdio.specs.Passing.{passes, number_of};

use std::io::{self, Cursor, Error, ErrorKind, Read, Write};
use std::thread;
use std::time::{Clock, Duration};

// A signal came.
const EINTR: i32 = 4;

// There is nothing to read, or no room, for now.
const EAGAIN: i32 = 11;

// A read or write that stopped early: how many bytes were moved before, and why no more of them.
#[derive(Clone, Copy)]
pub struct Stopped {
    pub count: usize,
    pub error: Error,
}

// Whether a read or write that failed with this error is tried again. The error is the system's number and no kind, as in `passes` (specs/Passing.antt).
pub fn passing(error: i32) -> bool
    ensures { result ≡ passes error }
{
    matches!(error, EINTR | EAGAIN)
}

// The system's number of an error: that of its kind where the system did not make it, and 0 where there is none.
pub fn number_of(error: Error) -> i32
    ensures { result ≡ number_of error }
{
    error.raw_os_error().unwrap_or(match error.kind() {
        ErrorKind::Interrupted => EINTR,
        ErrorKind::WouldBlock => EAGAIN,
        _ => 0,
    })
}

// Waits a millisecond or so.
fn pause(clock: &impl Clock) {
    thread::sleep(clock, Duration::from_millis(1));
}

// Whether a call that failed with this error is tried again, after the wait that the error asks for.
fn again(clock: &impl Clock, error: i32) -> bool
    ensures { result ≡ passes error }
{
    if error == EAGAIN {
        pause(clock);
    }
    passing(error)
}

// The error of a call that is not tried again any more.
fn gave_up() -> Error
    ensures { passes (number_of result) ≡ false }
{
    Error::new(ErrorKind::TimedOut, "it was tried too often")
}

// As Read::read: an error, or how many bytes were put at the start of buf, 0 at the end of the input.
pub fn read<R: Read>(clock: &impl Clock, from: &mut R, buf: &mut [u8]) -> io::Result<usize>
    ensures bound { IfOk result (λ n. n ≤ length buf.old) }
    ensures bytes { ReadConsumes (R.remaining from.old) (R.remaining from.new) result buf.new }
    ensures error { IfErr result (λ e. passes (number_of e) ≡ false) }
{
    'turns: for _ in 0..u64::MAX {
        match from.read(buf) {
            Err(e) if again(clock, number_of(e)) => {}
            done => return done,
        }
    }
    Err(gave_up())
}

// As Write::write: an error, or how many of the text's first bytes were taken. The loop is that of read: a function for both would need a trait of
// the call with two members and two laws, and an impl for each, where the loop is four lines.
fn write_some<W: Write>(clock: &impl Clock, to: &mut W, text: &[u8]) -> io::Result<usize>
    ensures bound { IfOk result (λ n. n ≤ length text.now) }
    ensures bytes { WriteAppends (W.contents to.old) (W.contents to.new) result text.now }
    ensures error { IfErr result (λ e. passes (number_of e) ≡ false) }
{
    'turns: for _ in 0..u64::MAX {
        match to.write(text) {
            Err(e) if again(clock, number_of(e)) => {}
            done => return done,
        }
    }
    Err(gave_up())
}

// Writes the whole text, or answers how many of its first bytes were written, and why no more of it: a write failed or took none.
// An empty text makes no call.
#[tactic(auto, using(crate::proofs::Moved::written))]
pub fn write<W: Write>(clock: &impl Clock, to: &mut W, text: &[u8]) -> Result<(), Stopped>
    ensures whole { OnOk result (Appends (W.contents to.old) (W.contents to.new) text.now) }
    ensures bound { IfErr result (λ s. s.count ≤ length text.now) }
    ensures bytes { IfErr result (λ s. Appends (W.contents to.old) (W.contents to.new) (take s.count text.now)) }
    ensures error { IfErr result (λ s. passes (number_of s.error) ≡ false) }
{
    // only its answer tells how much a call moves, so no iterator steps here, nor in read_to_end
    let mut count = 0;
    while count < text.len() {
        match write_some(clock, to, &text[count..]) {
            Ok(0) => {
                return Err(Stopped {
                    count,
                    error: Error::new(ErrorKind::WriteZero, "no byte was taken"),
                });
            }
            Ok(put) => count += put,
            Err(error) => return Err(Stopped { count, error }),
        }
    }
    Ok(())
}

// Writes the whole text, or answers why no more of it was written.
pub fn write_all<W: Write>(clock: &impl Clock, to: &mut W, text: &[u8]) -> io::Result<()>
    ensures bytes { OnOk result (Appends (W.contents to.old) (W.contents to.new) text.now) }
    ensures error { IfErr result (λ e. passes (number_of e) ≡ false) }
{
    write(clock, to, text).map_err(|stopped| stopped.error)
}

// Reads to the end of the input, or until the buffer is full. Answers how many bytes it read.
#[tactic(auto, using(crate::proofs::Moved::read_more))]
fn read_to_end<R: Read>(clock: &impl Clock, from: &mut R, buf: &mut [u8]) -> Result<usize, Stopped>
    ensures bound { MatchResult result (λ n. n ≤ length buf.old) (λ s. s.count ≤ length buf.old) }
    ensures bytes { MatchResult result (λ n. Consumes (R.remaining from.old) (R.remaining from.new) (take n buf.new))
        (λ s. Consumes (R.remaining from.old) (R.remaining from.new) (take s.count buf.new)) }
    ensures end { IfOk result (λ n. n < length buf.old → IsAtEnd (R.remaining from.new)) }
{
    let mut count = 0;
    while count < buf.len() {
        match read(clock, from, &mut buf[count..]) {
            Ok(0) => break,
            Ok(more) => count += more,
            Err(error) => return Err(Stopped { count, error }),
        }
    }
    Ok(count)
}

// Room for an input of up to 1,048,576 bytes, and one byte more. The programs above name no size.
pub fn input_buffer() -> [u8; 1048577]
    ensures { result ≡ replicate 1048577 0 }
{
    [0; 1048577]
}

// How many bytes of a text stand before its first byte 0.
fn text_length(text: &[u8]) -> usize
    ensures { result ≤ length text.now }
{
    text.iter().position(|b| *b == 0).unwrap_or(text.len())
}

// How many bytes of a text stand before the space and the parenthesis at its end: the system's errors have their number there.
fn unnumbered_length(text: &[u8]) -> usize
    ensures { result ≤ length text.now }
{
    match text.iter().rposition(|b| *b == b'(') {
        Some(i) => i.saturating_sub(1),
        None => text.len(),
    }
}

// Writes a line: what failed, as the caller names it, a colon and the error's text. What is not taken at once is lost, and the answer is then why.
pub fn fail<W: Write>(to: &mut W, what: &[u8], error: Error) -> io::Result<()>
    ensures { OnOk result (TellsFailure (W.contents to.old) (W.contents to.new) what.now) }
{
    let mut room = Cursor::new([0u8; 256]);
    let _ = write!(room, "{error}");
    let room = room.into_inner();
    let mut length = text_length(&room);
    if error.raw_os_error().is_some() {
        length = unnumbered_length(&room[..length]);
    }
    let named = to.write_all(what);
    let parted = to.write_all(b": ");
    let told = to.write_all(&room[..length]);
    let ended = to.write_all(b"\n");
    named?;
    parted?;
    told?;
    ended
}

// Reads the whole of an input, which has to be shorter than the buffer, and answers its length. Where a read fails, or the input is too long, it says so
// on standard error, in the caller's words, and answers 0. It answers no slice: `whole` is about the buffer afterwards, of which a function that lends it can say nothing.
pub fn read_input<R: Read, W: Write>(
    clock: &impl Clock,
    from: &mut R,
    told: &mut W,
    buf: &mut [u8],
    cannot_read: &[u8],
    too_long: &[u8],
) -> usize
    ensures bound { result ≤ length buf.old - 1 }
    ensures whole { 0 < result → IfSome (R.remaining from.old) (λ xs. take result buf.new ≡ xs) }
{
    match read_to_end(clock, from, buf) {
        Ok(count) if count < buf.len() => count,
        Ok(_) => {
            let _ = write(clock, told, too_long);
            0
        }
        Err(stopped) => {
            // nothing is left to tell a second failure to
            let _ = fail(told, cannot_read, stopped.error);
            0
        }
    }
}
