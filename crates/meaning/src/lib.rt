// No code: what a TIMActDis byte meant before byte 2 was disabled, and that requests with an explicit 0 or 1 answer as they did.
#![tactic(auto)]
