#![tactic(auto)]

// Demand 3: what a reader of a text's bytes sees is what the marked pieces show. The theorem stands in specs/.
