// Porter and Duff's and W3C's definitions, and that the compositor's pixels are theirs, step by rounded step: this crate has no code, only specs/ and proofs/.
#![tactic(auto)]
