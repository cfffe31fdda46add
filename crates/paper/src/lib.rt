// The worked examples of the scope, P1 to P12, as one theorem over the definitions that the contracts
// cite (specs/Examples.antt), and the list of the laws that every public contract leaves one result
// (proofs/Unique.antt). No code.
#![tactic(auto)]
