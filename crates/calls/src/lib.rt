// No code: what holds of every list of calls from C, demands 2 and 3 on bytes, and the page.
#![tactic(auto)]
