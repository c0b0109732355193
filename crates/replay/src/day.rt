// A day between two pieces of its input.
ghost use Rattle.std.specs.Prelude.{◌≡◌};
ghost use Rattle.replay.specs.Pieces.{stream_of, start};

use model::state::{Exchange, fresh};

// Between two pieces: the state, how many lines were answered, and the first len bytes, at most 81, of the line that has begun. Lines are
// no longer read once done is 4,294,967,295.
// len beside the bytes: stream_of reads a Day so.
#[derive(Clone, Copy)]
pub struct Day {
    pub exchange: Exchange,
    pub done: u32,
    pub len: usize,
    pub line: [u8; 81],
}

// The day after bytes of a piece, how many of them were taken, and how many bytes of answer lines were written.
// FedBy speaks of its fields.
#[derive(Clone, Copy)]
pub struct Fed {
    pub day: Day,
    pub used: usize,
    pub wrote: usize,
}

// Lines are read until so many were answered.
pub const LAST_LINE: u32 = 4_294_967_295;

// The day before its first byte.
pub fn fresh_day() -> Day
    ensures { stream_of result ≡ start }
{
    Day {
        exchange: fresh(),
        done: 0,
        len: 0,
        line: [0; 81],
    }
}
