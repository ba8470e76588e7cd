// A paper spelled from what is sent, and what the readers make of it, as theorems: no code that runs.
#![tactic(auto)]
