// Document 01's "Day lines": answer lines written into a lent buffer, call lines read, and a line that has begun kept until its end comes.
#![tactic(auto)]

pub mod answer;
pub mod call;
pub mod kept;
