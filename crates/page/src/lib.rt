// Document 01's rules said by the history alone; it has no code.
#![tactic(auto)]
