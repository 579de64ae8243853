#![tactic(auto)]
// No code: the definitions of document 01 are in specs/, the laws and theorems about them in proofs/.
