// What is seen in the texts of a set's files, said of its descriptors. Definitions and theorems stand in specs/.
#![tactic(auto)]
