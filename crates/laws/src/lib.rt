// Laws of lists that are read by place and of signed numbers that are read from their bits, cited by the crates above: this crate has no code, only proofs/.
#![tactic(auto)]
