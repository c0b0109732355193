// No code: the parts of the state that one call touches, and what the call makes of them. The definitions stand in specs/, their laws in proofs/.
#![tactic(auto)]
