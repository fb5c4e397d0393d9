// No code: what holds of every history.
#![tactic(auto)]
