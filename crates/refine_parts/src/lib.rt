// The parts of a site and of a machine: a link and a life, the pool's places and the list of held records, alarms, statuses and subscriptions.

#![tactic(auto)]
