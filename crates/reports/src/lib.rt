// No code: what is reported of each second, said by the calls alone.
#![tactic(auto)]
