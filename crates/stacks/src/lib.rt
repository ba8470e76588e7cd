// A stack as a whole, over the definitions that the contracts of `pages` cite: its text whatever pieces its bytes come in, and each page its own paper's, as theorems: no code that runs.
#![tactic(auto)]
