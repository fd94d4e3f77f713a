// What is text, from RFC 3629: definitions and laws alone.
#![tactic(auto)]
