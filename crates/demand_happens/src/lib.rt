// What demand 2 asks to happen, of the machine: due messages go out, a greeting ends in Up, held records go out; there is no code here.

#![tactic(auto)]
