// What limits 6, 8 and 9 leave of a set's names: every path and every written name has room in its buffer. The laws stand in specs/.
#![tactic(auto)]
