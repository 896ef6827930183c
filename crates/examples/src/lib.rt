#![tactic(auto)]

// The marked examples (rules X1 to X12), as specs/Examples.antt states them. No functions of its own: the examples are about the definitions
// that the functions' contracts use.
