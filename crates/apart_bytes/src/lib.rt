// What is switched off by the bytes of a set-up does not matter, as theorems over the definitions that the contracts cite: no code that runs.
#![tactic(auto)]
