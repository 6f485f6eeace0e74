// Request 13: how long a held record can wait, of the machine; there is no code here.

#![tactic(auto)]
