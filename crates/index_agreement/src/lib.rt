#![tactic(auto)]

// Demand 3 (rule L11): the lookup agrees with the plain reading, and compares few keys. No functions of its own:
// specs/LookupAgrees.antt states it of `index::check`, `index_lookup::lookup` and `index_lookup::bound`, and proofs/LookupAgrees.antt proves it.
