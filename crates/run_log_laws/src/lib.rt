// What a run logs, as theorems over the definitions that the contracts cite: no code that runs.
#![tactic(auto)]
