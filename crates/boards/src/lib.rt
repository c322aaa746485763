// What is proved of the gauges. It has no code: see specs/ for the statements and proofs/ for their proofs.
#![tactic(auto)]
