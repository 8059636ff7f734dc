#![tactic(auto)]

// How the reader of bytes goes through a text, piece by piece. The laws stand in specs/.
