// What the report of a list of entries is, and that a stream read in any pieces prints it.

#![tactic(auto)]
