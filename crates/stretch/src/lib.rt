// No code: the summaries of stretches of a history.
#![tactic(auto)]
