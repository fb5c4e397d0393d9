// No code: what `quarters` prints, by plain sums.
#![tactic(auto)]
