// Demand 1, of every run of the machine: what a refused call leaves, and when each number is given; there is no code here.

#![tactic(auto)]
