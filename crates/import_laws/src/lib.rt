// What an imported record is, as theorems over the definitions that the contracts cite: no code that runs.
#![tactic(auto)]
