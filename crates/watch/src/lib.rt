// No code: what holds of every list of calls of a supervisor with levels.
#![tactic(auto)]
