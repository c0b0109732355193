// The day program: reads call lines from standard input and writes the header and an answer line for each to standard output.
#![tactic(auto)]

ghost use Rattle.std.specs.Prelude.{◌≡◌, OnOk};
ghost use Rattle.model.specs.Run.{Reachable};
ghost use Rattle.replay.specs.Pieces.{Stream, stream_of, start, after, ended};

use lines::answer::header;
use replay::day::{Day, LAST_LINE, fresh_day};
use std::env::{Env, FillError};
use std::io::{self, Error, Read, Write};
use std::marker::Model;
use std::time::Clock;
use stream::{feed, finish};

// How many bytes of the input, or of answers, are taken at a time.
const PIECE: usize = 65536;

// What failed where the answers are not whole.
#[derive(Clone, Copy)]
enum Failure {
    Read(Error),
    Write(Error),
}

// The day between two pieces of its input, where its answers go, and room for them.
#[derive(Drop)]
struct Replay<'a, C, W> {
    clock: &'a C,
    to: &'a mut W,
    day: Day,
    out: [u8; PIECE],
}

// Contracts see what was fed so far.
impl<'a, C, W> Model for Replay<'a, C, W> {
    ghost Value = { Stream };

    ghost view = { λ r. stream_of r.day };

    ghost invariant = { λ r. Reachable r.day.exchange };
}

impl<'a, C: Clock, W: Write> Replay<'a, C, W> {
    #[tactic(auto, using(crate::proofs::Piece::start_reachable))]
    fn new(clock: &'a C, to: &'a mut W) -> Self
        ensures { result ≡ start }
    {
        Replay {
            clock,
            to,
            day: fresh_day(),
            out: [0; PIECE],
        }
    }

    // Feeds a piece of the input and writes what it answers.
    fn take_piece(&mut self, input: &[u8]) -> io::Result<()>
        ensures { OnOk result (self.new ≡ after self.old input.now) }
    {
        let mut rest = input;
        // How far it moves is in feed's answer alone, so no iterator steps here.
        while !rest.is_empty() {
            let fed = feed(self.day, rest, &mut self.out);
            self.day = fed.day;
            stdio::write_all(self.clock, self.to, &self.out[..fed.wrote])?;
            rest = &rest[fed.used..];
        }
        Ok(())
    }

    // Reads to the end of the input, or until the last line is answered. A proved loop has to end, so it has a number of turns that no run
    // uses up.
    fn take_all<R: Read>(&mut self, from: &mut R) -> Result<(), Failure> {
        let mut input = [0; PIECE];
        'turns: for _ in 0..u64::MAX {
            if LAST_LINE <= self.day.done {
                break;
            }
            match stdio::read(self.clock, from, &mut input).map_err(Failure::Read)? {
                0 => break,
                count => self.take_piece(&input[..count]).map_err(Failure::Write)?,
            }
        }
        Ok(())
    }

    // Answers the last line where it has no byte 10.
    fn take_last(&mut self) -> io::Result<()>
        ensures { self.new ≡ ended self.old }
    {
        let fed = finish(self.day, &mut self.out);
        self.day = fed.day;
        stdio::write_all(self.clock, self.to, &self.out[..fed.wrote])
    }
}

// Writes the header, and replays the day.
fn answer_all<R: Read, W: Write>(
    clock: &impl Clock,
    from: &mut R,
    to: &mut W,
) -> Result<(), Failure> {
    stdio::write_all(clock, to, &header()).map_err(Failure::Write)?;
    let mut replay = Replay::new(clock, to);
    replay.take_all(from)?;
    replay.take_last().map_err(Failure::Write)
}

// Whether the program was started with an argument.
fn has_argument(rt: &impl Env) -> bool {
    !matches!(rt.arg(1, &mut [0u8; 1]), Err(FillError::NotPresent))
}

// Arguments, and a read or write that fails, are told on standard error and end the program. The cause may be lost where standard error does not
// take it at once; the last line is tried again.
fn main(rt: HostRuntime) {
    let mut told = rt.stderr();
    if has_argument(&rt) {
        let _ = stdio::write_all(
            &rt,
            &mut told,
            b"day (Yeldozhym 4.0.0): takes no arguments; usage: day <TRAFFIC >ANSWERS\n",
        );
        return;
    }
    if let Err(failure) = answer_all(&rt, &mut rt.stdin(), &mut rt.stdout()) {
        let _ = match failure {
            Failure::Read(e) => stdio::fail(&mut told, b"day: cannot read", e),
            Failure::Write(e) => stdio::fail(&mut told, b"day: cannot write", e),
        };
        let _ = stdio::write_all(&rt, &mut told, b"day: the answers are not whole\n");
    }
}
