#![tactic(auto)]

// What the reader of bytes sees in the lines of a field, a map field, a oneof and its variants. The laws stand in specs/.
