// What the bench's calls give: specs/.
#![tactic(auto)]
