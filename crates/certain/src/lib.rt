// The three demands in one place; there is no code here.

#![tactic(auto)]
