// What is switched off does not matter, record by record, as theorems over the definitions that the contracts cite: no code that runs.
#![tactic(auto)]
