// Cases of document 01's rules, computed by the machine; there is no code here.

#![tactic(auto)]
