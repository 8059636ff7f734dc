#![tactic(auto)]

// Demand 3 as one theorem: specs/.
