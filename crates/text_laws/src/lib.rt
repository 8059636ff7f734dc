// The text and the faults of a file as they are written, by the tables, are code_generator's, by full names: specs/ has the laws.
#![tactic(auto)]
