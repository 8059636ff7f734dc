// Demand 3: what a reader of the texts sees. The definitions stand in specs/.
#![tactic(auto)]
