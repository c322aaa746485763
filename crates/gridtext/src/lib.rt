// The plainest text of a mesh, and that it is read as that mesh. It has no code: see specs/ for the text and the statement, and proofs/ for its proof.
#![tactic(auto)]
