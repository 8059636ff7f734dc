// The rows of declared places, of an accepted set: specs/.
#![tactic(auto)]
