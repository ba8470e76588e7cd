// The lines of a paper's log are those of its newest logged transactions, as theorems over the definitions that the contracts cite: no code that runs.
#![tactic(auto)]
