// No code: the model's definitions and statements in numbers. The cases stand in specs/, their proofs in proofs/.
#![tactic(auto)]
