// Exact numbers and the distance of a float from one: definitions and laws, no code. The definitions stand in specs/, the laws in proofs/.
#![tactic(auto)]
