// The majorant in f32 and what is shown of it: definitions and laws, no code. The definitions stand in specs/, the laws in proofs/.
#![tactic(auto)]
