// Sums, tests and lists over a range: definitions and their laws, with no code.
#![tactic(auto)]
