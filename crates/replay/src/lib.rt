// A recorded day: one line taken, the state by value; and the day between two pieces of its input.
#![tactic(auto)]

pub mod day;
pub mod line;
