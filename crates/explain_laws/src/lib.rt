// What the rows of a frame tell of each slot: theorems about the definitions, no code.
#![tactic(auto)]
