// Worked examples on mesh T: document 01's examples as one table, and two sequences of calls. It has no code: see specs/ and proofs/.
#![tactic(auto)]
