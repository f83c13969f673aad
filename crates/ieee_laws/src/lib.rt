// Laws of IEEE 754 arithmetic that the toolchain's `lib.Ieee` lacks: this crate has no code, only specs/ and proofs/.
#![tactic(auto)]
