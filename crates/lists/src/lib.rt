// Lists and sums over them: definitions and laws, and no code.
#![tactic(auto)]
