// The sums of the model over any arithmetic, for every degree up to 13: definitions and laws, no code. The definitions stand in specs/, the laws in proofs/.
#![tactic(auto)]
