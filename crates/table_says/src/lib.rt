// What the two tables that the text's writers read say of a set.
#![tactic(auto)]
