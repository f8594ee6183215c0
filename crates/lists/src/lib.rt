// Short operations on lists and comparisons of them: definitions and laws.
#![tactic(auto)]
