// What is shown of a whole paper, as theorems over the definitions that the contracts cite: no code that runs.
#![tactic(auto)]
