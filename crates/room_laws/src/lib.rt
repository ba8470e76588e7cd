// The room left over every list of messages, as theorems over the definitions that the contracts cite: no code that runs.
#![tactic(auto)]
