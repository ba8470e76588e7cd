// What a class's sheet says after its papers, in whatever order they came, as theorems over the definitions that the contracts cite: no code that runs.
#![tactic(auto)]
