// A slot among the pointers of an accepted frame, which the arrays of a move hold: why it moves or does not.
#![tactic(auto)]

pub mod among;
