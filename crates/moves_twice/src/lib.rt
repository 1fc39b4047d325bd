// Two moves of one window in a row: the joined table, and that they are one move with it. Definitions and laws.
#![tactic(auto)]
