#![tactic(auto)]

// A search through the records of a root file finds exactly the first of all that are wanted, whatever is wanted of a record; the
// lookup of a file number is one such search (rule R15). No functions of its own: specs/Records.antt states it, of the lookup in terms
// of `root::check` and `root::lookup`, and proofs/Records.antt proves it.
