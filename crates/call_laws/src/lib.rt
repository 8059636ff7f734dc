// The file with an index, of an accepted set: specs/.
#![tactic(auto)]
