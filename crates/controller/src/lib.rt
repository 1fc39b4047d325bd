// The bench controller, document 02, request 14: its profile, its moves and threads by those of the base, and the theorems about them.
#![tactic(auto)]
