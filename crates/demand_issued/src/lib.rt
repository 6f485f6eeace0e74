// What a message that carries a record tells, which records a call issues, and what a reply tells, of the history of the machine; there is no code here.

#![tactic(auto)]
