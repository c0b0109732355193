// The exchange that everything else is proved against: its state, its calls and its answers. The calls' meaning stands in specs/.
#![tactic(auto)]

pub mod answer;
pub mod call;
pub mod orders;
pub mod state;
