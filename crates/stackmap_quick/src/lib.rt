// The quick look at one record: it tells only that all is right.
#![tactic(auto)]

pub mod quick;
