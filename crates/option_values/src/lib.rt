#![tactic(auto)]

// Demand 3: what a reader of bytes takes as one symbol is an option's value, and nothing else. The theorem stands in specs/.
