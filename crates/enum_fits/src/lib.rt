// Nothing of an enum is left out in a set within the limits: its text is append_enum's, and refusal 8 is found in it. The laws stand in specs/.
#![tactic(auto)]
