#![tactic(auto)]

// Demand 3: a set without refusals 6 and 7 is one whose texts the reader of bytes sees. The theorem stands in specs/.
