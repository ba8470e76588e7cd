// What the sheet of a class says is what the tallies of its papers come to, as theorems over the definitions that the contracts cite: no code that runs.
#![tactic(auto)]
