// Demand 3: a reader of the texts' bytes. The definitions stand in specs/.
#![tactic(auto)]
