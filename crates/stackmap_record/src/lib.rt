// The exact check of one record: it names the refusal.
#![tactic(auto)]

pub mod record;
