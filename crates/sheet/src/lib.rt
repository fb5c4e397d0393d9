// No code: every rule of a tandem level said by the history alone.
#![tactic(auto)]
