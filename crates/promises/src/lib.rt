// What is promised, as theorems: this crate's matter is its proofs/.
#![tactic(auto)]
