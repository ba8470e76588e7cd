// What a log is read to be is what its paper's set-up was spelled from, and a field the bytes that its entry names, as theorems: no code that runs.
#![tactic(auto)]
