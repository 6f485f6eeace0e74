// Demand 2, as theorems about the machine: one answer for each request, no alarm to a secondary, no report before the greeting is through, every message reads back, exactly the commands asked for are handed over.

#![tactic(auto)]
