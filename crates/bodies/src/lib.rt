// Flat bodies whose words stand in a scratch: what canonicalizing and merging both ask of terms, of atoms, and of the buckets that words and atoms
// fall into.
#![tactic(auto, using(octets::proofs::Words::length_words))]

pub mod atoms;
pub mod buckets;
pub mod terms;
