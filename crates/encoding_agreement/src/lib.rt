#![tactic(auto)]

// Lookups in a checked encoding file agree with the plain reading of its pages (rule E25). No functions of its own:
// specs/Agreement.antt states it of `encoding::check` and `encoding_lookup`, and proofs/Agreement.antt proves it.
