// No code: the step by equations and the step by table answer alike.
#![tactic(auto)]
