// The tail of a snapshot, connector values and state words, as a definition, with theorems on it. There are no functions.
#![tactic(auto)]
