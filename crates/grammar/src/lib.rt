// A paper as text, both ways: the grammar, and theorems over it; no code that runs.
#![tactic(auto)]
