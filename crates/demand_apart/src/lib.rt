// Request 10: the sites of a box do not see each other while the pool is not full; there is no code here.

#![tactic(auto)]
