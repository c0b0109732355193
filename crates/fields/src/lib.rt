// The field reader: the numbers of a line, read where it lies.
#![tactic(auto)]

ghost use Rattle.std.specs.Prelude.{◌≡◌, None, not, position};
ghost use Rattle.fields.specs.Fields.{comma_at, field_step, first_step, is_field_byte, fields_end, with_numbers, fields_at};

// The numbers that a line begins with, the kind and its fields, and the place where the reader stopped: count of the values are numbers,
// and the others are 0. count is 0 and values are 0 where a field is no number or there are more than MOST_NUMBERS. read_fields promises all
// eight values (with_numbers), of which a vector of fixed capacity shows the first count alone.
#[derive(Clone, Copy)]
pub struct Fields {
    pub count: usize,
    pub values: [u32; 8],
    pub stop: usize,
}

// "At most 80 bytes before byte 10".
pub const LONGEST_LINE: usize = 80;

// More than any kind has.
const MOST_NUMBERS: usize = 8;

// A field's value with one byte more: it is a digit, or the field ends before it, or the field is no number. Of these three, field_step
// (specs/Fields.antt) tells each.
#[derive(Clone, Copy)]
pub enum FieldStep {
    Value(u32),
    End,
    Bad,
}

// The byte b after a field's value. started says that the field has a digit already.
#[tactic(auto, unfolding(crate::specs::Fields::field_step))]
fn field_step(started: bool, value: u32, b: u8) -> FieldStep
    ensures { result ≡ field_step started value b }
{
    if !matches!(b, b'0'..=b'9') {
        return FieldStep::End;
    }
    if started && value == 0 {
        return FieldStep::Bad;
    }
    match u32::try_from(u64::from(value) * 10 + u64::from(b - b'0')) {
        Ok(next) => FieldStep::Value(next),
        Err(_) => FieldStep::Bad,
    }
}

// The byte at a place as a field's first. The field is empty where that is no digit, and at the bytes' end.
#[tactic(auto, unfolding(crate::specs::Fields::first_step))]
fn first_step(bytes: &[u8], at: usize) -> FieldStep
    ensures { result ≡ first_step bytes.now at }
{
    match bytes.get(at) {
        Some(b) => field_step(false, 0, *b),
        None => FieldStep::End,
    }
}

// Whether a comma stands at a place.
#[tactic(auto, unfolding(crate::specs::Fields::comma_at))]
fn comma_at(bytes: &[u8], at: usize) -> bool
    ensures { result ≡ comma_at bytes.now at }
{
    bytes.get(at) == Some(&b',')
}

// The place of the first byte that is neither digit nor comma.
fn first_other(bytes: &[u8]) -> Option<usize>
    ensures { result ≡ position (λ b. not (is_field_byte b)) bytes.now }
{
    bytes.iter().position(|b| !matches!(*b, b'0'..=b'9' | b','))
}

// The place of the first byte from a place on that is neither digit nor comma, or the end.
#[tactic(auto, using(crate::proofs::Scan::end_found, crate::proofs::Scan::found_within, crate::proofs::Scan::end_past))]
fn fields_end(bytes: &[u8], from: usize) -> usize
    ensures { result ≡ fields_end bytes.now from }
{
    match bytes.get(from..) {
        Some(rest) => from + first_other(rest).unwrap_or(rest.len()),
        None => from,
    }
}

// No numbers from a place on, where the reader stops all the same.
fn no_fields(bytes: &[u8], from: usize) -> Fields
    ensures { result ≡ with_numbers (fields_end bytes.now from) None }
{
    Fields {
        count: 0,
        values: [0; 8],
        stop: fields_end(bytes, from),
    }
}

// Reads fields from a place on: "The field reader stops at the first byte that is neither digit nor comma". The outer loop goes field by
// field and the inner one digit by digit; the outer is left by its label at a bad byte or the line's end,
// as document 01 asks for.
#[tactic(auto, using(crate::proofs::Scan::reading))]
pub fn read_fields(bytes: &[u8], from: usize) -> Fields
    ensures { result ≡ fields_at bytes.now from }
{
    let mut values = [0; 8];
    let mut count = 0;
    let mut i = from;
    let good = 'line: loop {
        // a field: its first digit, then the others up to the byte after them
        let FieldStep::Value(first) = first_step(bytes, i) else {
            break 'line false;
        };
        let mut value = first;
        i += 1;
        'digits: while let Some(b) = bytes.get(i) {
            match field_step(true, value, *b) {
                FieldStep::Value(next) => value = next,
                FieldStep::End => break 'digits,
                FieldStep::Bad => break 'line false,
            }
            i += 1;
        }
        // here and not before the field is read, where it takes 4 in 100 instructions of a line of the day more
        if count == MOST_NUMBERS {
            break 'line false;
        }
        values[count] = value;
        count += 1;
        if !comma_at(bytes, i) {
            break 'line true;
        }
        i += 1;
    };
    if !good {
        return no_fields(bytes, i);
    }
    Fields {
        count,
        values,
        stop: i,
    }
}
