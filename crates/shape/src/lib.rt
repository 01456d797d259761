// The theory of the tree over lists: definitions in specs/, laws in proofs/.
#![tactic(auto)]
