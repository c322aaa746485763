// The three demands and the round trip, said of the contracts. It has no code: see specs/ for the statements and proofs/ for their proofs.
#![tactic(auto)]
