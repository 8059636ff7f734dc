// Under a name check that says yes, each written path reaches the one declaration that the descriptor names. Theorems and definitions stand in specs/.
#![tactic(auto)]
