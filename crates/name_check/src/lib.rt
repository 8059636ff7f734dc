// The name check: do the names that are written differ within each module, struct and oneof? The definition stands in specs/.
#![tactic(auto)]
