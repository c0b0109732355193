// A set of the tickets 0 to 63 in a u64: a round's marks, one bit for each ticket. It has no type of its own: a round's state is
// defined with the number.
#![tactic(auto)]

ghost use Rattle.std.specs.Prelude.{◌≡◌, ◌<◌};
ghost use Rattle.ticket_set.specs.TicketSet.{has_ticket, inserted, removed, count_of, next_of};

// The functions below are public for the crates above, which ask for a ticket below 64.

// Whether a ticket is a member.
#[tactic(auto, unfolding(crate::specs::TicketSet::bit))]
pub fn contains(set: u64, ticket: u32) -> bool
    requires { ticket < 64 }
    ensures { result ≡ has_ticket set ticket }
{
    (set >> ticket) % 2 == 1
}

// The set with a ticket, whether it was a member or not.
#[tactic(auto, using(crate::proofs::Bits::or_shl))]
pub fn insert(set: u64, ticket: u32) -> u64
    requires { ticket < 64 }
    ensures { result ≡ inserted set ticket }
{
    set | (1 << ticket)
}

// The set without a ticket, whether it was a member or not.
#[tactic(auto, using(crate::proofs::Bits::and_not_shl))]
pub fn remove(set: u64, ticket: u32) -> u64
    requires { ticket < 64 }
    ensures { result ≡ removed set ticket }
{
    set & !(1 << ticket)
}

// How many members a set has.
#[tactic(auto, using(crate::proofs::Laws::ones_count))]
pub fn count(set: u64) -> u32
    ensures { result ≡ count_of set }
{
    set.count_ones()
}

// The least member of a set, by its trailing zeros.
#[tactic(auto, using(crate::proofs::Least::next_of_empty, crate::proofs::Least::zeros_next))]
pub fn next_ticket(set: u64) -> Option<u32>
    ensures { result ≡ next_of set }
{
    if set == 0 {
        None
    } else {
        Some(set.trailing_zeros())
    }
}
