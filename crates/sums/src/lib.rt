// No code: summaries of what calls from C report, in their bytes.
#![tactic(auto)]
