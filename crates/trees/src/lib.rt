// Trees of objects and the bytes that they are written in, as theorems over the definitions that the contracts of `object` cite: no code that runs.
#![tactic(auto)]
