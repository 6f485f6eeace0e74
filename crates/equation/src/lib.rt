// What a host of the exported functions sees is what the machine says; there is no code here.

#![tactic(auto)]
