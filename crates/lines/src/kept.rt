// A line that has begun, kept until its end comes.
ghost use Rattle.std.specs.Prelude.{◌≡◌, ◌++◌, ◌≤◌, length, take};
ghost use Rattle.lines.specs.Kept.{kept_bytes};

// A line that has begun: its first bytes, at most 81, are the first len of line. What keep promises names both, and a day has them so.
#[derive(Clone, Copy)]
pub struct Kept {
    pub len: usize,
    pub line: [u8; 81],
}

pub const KEPT_BYTES: usize = 81;

// The line begun, with the first end bytes of the input after it. For the crates above: it asks that no more than 81 bytes were kept, and that
// the input has so many.
#[tactic(auto, using(crate::proofs::KeptLaws::kept_more))]
pub fn keep(begun: [u8; 81], before: usize, input: &[u8], end: usize) -> Kept
    requires before_le_kept_bytes { before ≤ kept_bytes }
    requires end_in_bounds { end ≤ length input.now }
    ensures len_le_kept_bytes { result.len ≤ kept_bytes }
    ensures line_len { length result.line ≡ kept_bytes }
    ensures line_value { take result.len result.line ≡ take kept_bytes (take before begun ++ take end input.now) }
{
    let mut line = begun;
    let more = end.min(KEPT_BYTES - before);
    line[before..before + more].copy_from_slice(&input[..more]);
    Kept {
        len: before + more,
        line,
    }
}
