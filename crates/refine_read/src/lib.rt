// What is read of a packet, by the code and by the machine: head, needs and reasons, the lists of statuses, Version and its three checks.

#![tactic(auto)]
