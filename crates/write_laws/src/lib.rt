// What holds of the written messages: each is one packet that says it, and reads back. There is no code here.

#![tactic(auto)]
