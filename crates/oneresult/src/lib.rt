// Two results that one contract allows are equal; there is no code here.

#![tactic(auto)]
