// The index as one computing machine, trees included: definitions in specs/, laws in proofs/.
#![tactic(auto)]
