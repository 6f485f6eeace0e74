// Which packets are taken and what they come to, of the history of the machine; there is no code here.

#![tactic(auto)]
