// What the bytes of an IAD and the text of a line say, as theorems over the definitions that the contracts cite: no code that runs.
#![tactic(auto)]
