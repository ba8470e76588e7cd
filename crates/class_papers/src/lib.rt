// What a paper adds to its class's sheet, in the demands' own words, as theorems over the definitions that the contracts cite: no code that runs.
#![tactic(auto)]
