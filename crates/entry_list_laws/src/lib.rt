#![tactic(auto)]

// The entries of an index that is checked, written or read. No functions of its own: specs/Claims.antt has the laws that crates above
// go by, and proofs/ proves them.
