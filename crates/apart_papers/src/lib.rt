// What is switched off does not matter, over set-ups and papers, as theorems over the definitions that the contracts cite: no code that runs.
#![tactic(auto)]
