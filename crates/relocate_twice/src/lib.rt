// Two moves of one frame in a row are one move with the joined table: the definitions and the theorem, document 02, request 11.
#![tactic(auto)]
