// Of an accepted set, the names of members that meet by the tables are those of the name check. Theorems stand in specs/.
#![tactic(auto)]
