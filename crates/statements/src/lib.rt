// What is proved of the product, read from the top: specs/ has the statements, proofs/ their proofs. A statement is a type, and a type asks for no proof; a
// function's contract does. So one function promises them all, and the crate is proved only with a proof of each.
#![tactic(auto)]

ghost use Rattle.statements.specs.Every.{EveryStatement};

// Does nothing, and promises every statement.
fn every_statement()
    ensures { EveryStatement }
{}
