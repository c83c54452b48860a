// What the RISC-V unprivileged manual says, as definitions, with examples from outside: words and halfwords of RV64I, M, C, Zba and Zbb, integer part.
// This crate depends on numbers and ops only, so nothing of the Rust reading can be in it.
#![tactic(auto)]
