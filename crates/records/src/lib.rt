// No code: a frame and a mark in the records of a supervisor's bytes are those of the definitions.
#![tactic(auto)]
