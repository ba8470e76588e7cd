// What a version of papers means to an older one, as theorems.
#![tactic(auto)]
