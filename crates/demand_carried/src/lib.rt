// Demand 3's "until that supervisor answers a message carrying it", of the history of the machine; there is no code here.

#![tactic(auto)]
