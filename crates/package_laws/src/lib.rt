// Laws of the modules of packages, in specs.
#![tactic(auto)]
