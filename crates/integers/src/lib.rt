// Laws of integers, and of how the machine holds them.
#![tactic(auto)]
