#![tactic(auto, unfolding(refusal::specs::Outcome::after, crossing::specs::Crossing::result, crossing::specs::Crossing::answer_words))]

// What C and Rust link. Each function calls the library and lays its answer out: first the inputs, then the outputs,
// last the eight words of the answer. The result is 0 answered, 1 absent, 2 refused; words that a case does not name are 0.
pub mod encodings;
pub mod envelopes;
pub mod file_numbers;
pub mod hash;
pub mod indexes;
pub mod keys;
mod narrow;
pub mod roots;
pub mod worklists;
