// A site of the code and a machine: the relation, and start, the readings and every call but packet.

#![tactic(auto)]
