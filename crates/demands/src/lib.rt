// What the user may rely on, as theorems over the definitions that the contracts cite: no code that runs.
#![tactic(auto)]
