// Demand 3 for any run: what is held after a sequence of calls. It has no code: see specs/ for the statement and proofs/ for its proof.
#![tactic(auto)]
