// code_generator.rs: the text of a file. The definitions stand in specs/.
#![tactic(auto)]
