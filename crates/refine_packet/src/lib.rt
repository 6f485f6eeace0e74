// What a packet comes to, by the code and by the machine.

#![tactic(auto)]
