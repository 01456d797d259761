// The three demands, over the public contracts: definitions in specs/, proofs in proofs/.
#![tactic(auto)]
