// The rows of all frames of a thread: definitions and laws, and no code.
#![tactic(auto)]
