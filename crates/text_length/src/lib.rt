// How long a text can be: specs/.
#![tactic(auto)]
