// What is switched off does not matter, over records and runs, as theorems over the definitions that the contracts cite: no code that runs.
#![tactic(auto)]
