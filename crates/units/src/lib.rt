// The three sorts of count, each with its own operations, so that no two sorts mix; and division rounded down and up.
#![tactic(auto)]

ghost use Rattle.std.specs.Prelude.{◌≡◌, ◌+◌, ◌-◌, ◌*◌, ◌<◌, ◌≤◌, ltb};
ghost use Rattle.units.specs.Counts.{largest, sum_if_fits, rest_if_within};
ghost use Rattle.units.specs.Rounding.{down, up};

// A count of token units.
#[derive(Clone, Copy, PartialEq, Eq, PartialOrd, Ord)]
pub struct Amount(pub u32);

impl Amount {
    // The sum of two amounts, where it is one. Its callers know that it is, so it cannot fail.
    pub fn plus(self, b: Amount) -> Amount
        requires { self.0 + b.0 ≤ largest }
        ensures { result.0 ≡ self.0 + b.0 }
    {
        Amount(self.0 + b.0)
    }

    // An amount less another that is within it. It cannot fail either.
    pub fn minus(self, b: Amount) -> Amount
        requires { b.0 ≤ self.0 }
        ensures { result.0 ≡ self.0 - b.0 }
    {
        Amount(self.0 - b.0)
    }

    // The sum of two amounts, unless it passes the largest number.
    pub fn checked_add(self, b: Amount) -> Option<Amount>
        ensures { result ≡ sum_if_fits self.0 b.0 }
    {
        self.0.checked_add(b.0).map(Amount)
    }

    // An amount less another, unless it is less than the other.
    pub fn checked_sub(self, b: Amount) -> Option<Amount>
        ensures { result ≡ rest_if_within self.0 b.0 }
    {
        self.0.checked_sub(b.0).map(Amount)
    }
}

// Millionths of a quote unit per base unit.
#[derive(Clone, Copy, PartialEq, Eq, PartialOrd, Ord)]
pub struct Price(pub u32);

// A block number.
#[derive(Clone, Copy, PartialEq, Eq, PartialOrd, Ord)]
pub struct Block(pub u32);

impl Block {
    // The blocks since another that is not later.
    pub fn since(self, b: Block) -> u32
        requires { b.0 ≤ self.0 }
        ensures { result ≡ self.0 - b.0 }
    {
        self.0 - b.0
    }

    // Whether it is fewer than n blocks since another. The sum can pass the largest number.
    pub fn fewer_since(self, b: Block, n: u32) -> bool
        ensures { result ≡ ltb self.0 (b.0 + n) }
    {
        u64::from(self.0) < u64::from(b.0) + u64::from(n)
    }

    // Whether it is more than n blocks since another.
    pub fn more_since(self, b: Block, n: u32) -> bool
        ensures { result ≡ ltb (b.0 + n) self.0 }
    {
        u64::from(b.0) + u64::from(n) < u64::from(self.0)
    }
}

// The functions below are public for the crates above: their divisor is at least 1 there. Each rounding has its own functions: one with
// the rounding as a parameter is no plainer.

// a / b, rounded down.
#[tactic(auto, unfolding(crate::specs::Rounding::down))]
pub fn div_down(a: u64, b: u64) -> u64
    requires { 0 < b }
    ensures { result ≡ down a b }
{
    a / b
}

// a / b, rounded up.
#[tactic(auto, using(crate::proofs::Rounding::ceil_is))]
pub fn div_up(a: u64, b: u64) -> u64
    requires { 0 < b }
    ensures { result ≡ up a b }
{
    a.div_ceil(b)
}

// No product of two u32 is too large for a u64.
pub fn product(a: u32, b: u32) -> u64
    ensures { result ≡ a * b }
{
    u64::from(a) * u64::from(b)
}

// a × b / d, rounded down.
pub fn part_down(a: u32, b: u32, d: u32) -> u64
    requires { 0 < d }
    ensures { result ≡ down (a * b) d }
{
    div_down(product(a, b), u64::from(d))
}

// a × b / d, rounded up.
pub fn part_up(a: u32, b: u32, d: u32) -> u64
    requires { 0 < d }
    ensures { result ≡ up (a * b) d }
{
    div_up(product(a, b), u64::from(d))
}
