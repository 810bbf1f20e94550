// What the definitions of the other crates count and spell with: specs/ and its laws in proofs/. There is no code.
#![tactic(auto)]
