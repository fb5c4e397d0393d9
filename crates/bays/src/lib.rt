// No code: the supervisor with six tandem levels as bytes, and what is done in the bytes of its levels is that of the definitions.
#![tactic(auto)]
