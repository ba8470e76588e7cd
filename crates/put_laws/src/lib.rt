// A PUT DATA command spelled from what it writes, as theorems over the definitions that the contracts cite: no code that runs.
#![tactic(auto)]
