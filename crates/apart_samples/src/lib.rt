// What is switched off does not matter: pairs of papers, computed, and no code that runs.
#![tactic(auto)]
