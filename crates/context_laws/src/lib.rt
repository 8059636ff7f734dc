// The tables of numbers that message_graph and derives are proved over, for the descriptors of a set: specs/ has them, and that the answers are context's.
#![tactic(auto)]
