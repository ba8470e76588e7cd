// What is switched off does not matter to the text of a paper, its log among it, as theorems over the definitions that the contracts cite: no code that runs.
#![tactic(auto)]
