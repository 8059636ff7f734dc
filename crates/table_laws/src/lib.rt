// The tables that the text's writers read, of a set within the limits and without refusals 6 and 7: specs/ has what each row says.
#![tactic(auto)]
