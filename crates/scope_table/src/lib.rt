#![tactic(auto)]

// Document 01's table of examples, as one theorem: specs/ScopeTable.
