// What a gauge's peak is after any sequence of calls, for any record that has the laws. It has no code: see specs/ for the statement and proofs/ for its proof.
#![tactic(auto)]
