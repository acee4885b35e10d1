// The theory: definitions in specs/, laws in proofs/, and no function.
#![tactic(auto)]
