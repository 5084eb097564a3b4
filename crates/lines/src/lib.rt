// The two ends of the program lower, on byte slices: lines of hexadecimal digits become words, and a result or a refusal becomes text.
#![tactic(auto)]

pub mod printing;
pub mod reading;
