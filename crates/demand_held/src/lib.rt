// Demand 3, of every run of the machine: what becomes of a held record; there is no code here.

#![tactic(auto)]
