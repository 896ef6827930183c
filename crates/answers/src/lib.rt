#![tactic(auto, unfolding(refusal::specs::Outcome::after, crossing::specs::Crossing::result, crossing::specs::Crossing::answer_words))]

// What the library's calls answer, laid out for C as a result and eight words.
pub mod file_numbers;
pub mod hashes;
pub mod indexes;
pub mod keys;
pub mod roots;
pub mod told;
pub mod words;
