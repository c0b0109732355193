// Decimal numbers written into a lent buffer. No array is kept: each digit goes straight to its final place (tests/arrays).
#![tactic(auto)]

ghost use Rattle.std.specs.Prelude.{◌≡◌, [], ◌∷◌, ◌++◌, ◌+◌, ◌≤◌, length};
ghost use Rattle.units.specs.Decimal.{digits};
ghost use Rattle.decimal.specs.Buffer.{put_at, put_into, put_count};
ghost use Rattle.decimal.specs.Numbers.{NumberBounded};

pub mod wide;

// How many digits n has, at most ten. Ten rows say it as plainly as a logarithm, which has 0 apart.
#[tactic(auto, using(crate::proofs::Digits::digit_counts))]
pub fn digit_count(n: u32) -> usize
    ensures value { result ≡ length (digits n) }
    ensures upper_bound { result ≤ 10 }
{
    match n {
        0..=9 => 1,
        10..=99 => 2,
        100..=999 => 3,
        1_000..=9_999 => 4,
        10_000..=99_999 => 5,
        100_000..=999_999 => 6,
        1_000_000..=9_999_999 => 7,
        10_000_000..=99_999_999 => 8,
        100_000_000..=999_999_999 => 9,
        _ => 10,
    }
}

// Writes n, of k digits, at the start of out and answers how many bytes that took. It asks for that room. All writers of both widths end here.
// No Display: the clause is put_at of digits, in a lent buffer.
#[tactic(auto, using(crate::proofs::Storing::storings))]
fn write_number(out: &mut [u8], n: u64, k: usize) -> usize
    requires count { k ≡ length (digits n) }
    requires room { k ≤ length out.old }
    ensures value { result ≡ length (digits n) }
    ensures out_after { out.new ≡ put_at out.old 0 (digits n) }
{
    let mut m = n;
    for i in (1..k).rev() {
        let q = m / 10;
        out[i] = (48 + (m - q * 10)) as u8;
        m = q;
    }
    out[0] = (48 + m) as u8;
    k
}

// Writes n, of k digits, at the start of out where it has that room, and answers how many bytes that took, else 0.
// 0 and no Option where out is too short: put_count says it (specs/Buffer.antt).
#[tactic(auto, using(crate::proofs::Put::puts))]
fn put_digits(out: &mut [u8], n: u64, k: usize) -> usize
    requires { k ≡ length (digits n) }
    ensures value { result ≡ put_count out.old (digits n) }
    ensures out_after { out.new ≡ put_into out.old (digits n) }
{
    if out.len() < k {
        return 0;
    }
    write_number(out, n, k)
}

// The number writer, of 32 bits: writes n at the start of out and answers how many bytes that took. As many bytes as n has digits are
// enough, and no byte after them changes; where out is shorter, it answers 0 and changes no byte.
// 0 and no Option where out is too short: put_count says it (specs/Buffer.antt).
#[tactic(auto, using(crate::proofs::Numbers::number_bounds))]
pub fn put_number(out: &mut [u8], n: u32) -> usize
    ensures value { result ≡ put_count out.old (digits n) }
    ensures out_after { out.new ≡ put_into out.old (digits n) }
    ensures number_bounded { NumberBounded n 10 }
{
    let k = digit_count(n);
    put_digits(out, n as u64, k)
}

// Writes n and then the byte end from index at on, and answers the index after them. For the crates above, which know that there is
// room: it asks for that room.
#[tactic(auto, using(crate::proofs::Put::put_ended))]
pub fn write_field(out: &mut [u8], at: usize, n: u32, end: u8) -> usize
    requires { at + length (digits n) + 1 ≤ length out.old }
    ensures value { result ≡ at + length (digits n) + 1 }
    ensures out_after { out.new ≡ put_at out.old at (digits n ++ («end» ∷ [])) }
{
    let k = digit_count(n);
    let used = write_number(&mut out[at..], n as u64, k);
    let stop = at + used;
    out[stop] = end;
    stop + 1
}
