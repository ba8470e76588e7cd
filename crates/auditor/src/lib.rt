// An auditor's reader of an issuer script's template, as theorems over the definitions that the contracts cite: no code that runs.
#![tactic(auto)]
