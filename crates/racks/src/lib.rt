// No code: a frame and a mark in the record of a tandem level are those of the definitions.
#![tactic(auto)]
