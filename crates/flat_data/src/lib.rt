// The flat section as data, and that its bytes and its data determine each other. There is no code here: see specs/ and proofs/.
#![tactic(auto)]
