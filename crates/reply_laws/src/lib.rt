// What a printed line tells is what is read from it, as theorems over the definitions that the contracts cite: no code that runs.
#![tactic(auto)]
