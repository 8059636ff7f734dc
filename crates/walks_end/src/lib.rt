#![tactic(auto)]

// No walk through the texts of a set comes back, and where Box stands in them. Theorems and definitions stand in specs/.
