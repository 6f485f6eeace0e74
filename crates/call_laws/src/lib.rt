// The laws over the calls; there is no code here.

#![tactic(auto)]
