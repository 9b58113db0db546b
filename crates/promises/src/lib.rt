// The promises to the two laboratories, as theorems: specs/ has their words, proofs/ their proofs. There is nothing to run here.
#![tactic(auto)]
