#![tactic(auto)]

// On three checked files that fit each other the chain tells what reading each of them from first to last tells. No functions of its
// own: specs/Agreement.antt states it of `root::check`, `encoding::check`, `index::check` and `chain::resolve`, and
// proofs/Agreement.antt proves it.
