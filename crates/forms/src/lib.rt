// Lines of words and the bytes that they say, by the form of a line: definitions and laws, no code that runs.
#![tactic(auto)]
