// What is printed, as its reader takes it apart: the lines of a paper, of a stack and of old records, as theorems.
#![tactic(auto)]
