// Document 01's questions over the whole manifest, and the answer of a call: definitions and laws alone.
#![tactic(auto)]
