// A set-up and its tails spelled from their fields, and what their readers say of the spelling, as theorems: no code that runs.
#![tactic(auto)]
