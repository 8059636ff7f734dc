// What a set has that passes no limit: specs/Within.
#![tactic(auto)]
