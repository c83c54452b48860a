// Theorems alone: where the Rust reading and the manual's are one, and what each of them is at the listed entries.
#![tactic(auto)]
