#![tactic(auto)]

// Demand 2 (rules I23, I24): what is read is written again, and what is written is read back. No functions of its own:
// specs/RoundTrip.antt states it of `index::check`, `index_list::list` and `index_writer::write`, and proofs/RoundTrip.antt proves it.
