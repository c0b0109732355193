// Numbers of 64 bits, up to twenty digits, written into a lent buffer.
ghost use Rattle.std.specs.Prelude.{◌≡◌, ◌≤◌, length};
ghost use Rattle.units.specs.Decimal.{digits};
ghost use Rattle.decimal.specs.Buffer.{put_into, put_count};
ghost use Rattle.decimal.specs.Numbers.{NumberBounded};

// The largest number of 32 bits.
const LARGEST: u64 = 4_294_967_295;

// A number of 64 bits has at most ten digits before its last ten.
const TEN_TO_TEN: u64 = 10_000_000_000;

// How many digits n has, at most twenty: the count of 64 bits is built on that of 32.
#[tactic(auto, using(crate::proofs::Digits::digit_counts))]
pub fn digit_count(n: u64) -> usize
    ensures value { result ≡ length (digits n) }
    ensures upper_bound { result ≤ 20 }
{
    if n <= LARGEST {
        return crate::digit_count(n as u32);
    }
    if n < TEN_TO_TEN {
        return 10;
    }
    crate::digit_count((n / TEN_TO_TEN) as u32) + 10
}

// The number writer, of 64 bits: as crate::put_number of 32.
// 0 and no Option where out is too short: put_count says it (specs/Buffer.antt).
// Both widths stay: request L3 and README name them; each is a line over put_digits.
#[tactic(auto, using(crate::proofs::Numbers::number_bounds))]
pub fn put_number(out: &mut [u8], n: u64) -> usize
    ensures value { result ≡ put_count out.old (digits n) }
    ensures out_after { out.new ≡ put_into out.old (digits n) }
    ensures number_bounded { NumberBounded n 20 }
{
    let k = digit_count(n);
    crate::put_digits(out, n, k)
}
