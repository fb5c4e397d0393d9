// No code: the scan of a whole trace, and what holds of it.
#![tactic(auto)]
