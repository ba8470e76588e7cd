// The demands over papers: from every byte string to its set-up, its commands, its answers and its lines, as theorems.
#![tactic(auto)]
