// A run and the same records sent singly, as theorems over the definitions that the contracts cite: no code that runs.
#![tactic(auto)]
