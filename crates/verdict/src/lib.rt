// The verdict on two manifests as a definition, and demand 3 as statements and theorems. There are no functions.
#![tactic(auto)]
