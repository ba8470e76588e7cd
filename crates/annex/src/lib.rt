// CPA Annex A as a walk over places in the file's bytes, as theorems over the definitions that the contracts cite: no code that runs.
#![tactic(auto)]
