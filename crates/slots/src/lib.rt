// No code: the bytes of a supervisor with its pending second, their ranges, and the round trip.
#![tactic(auto)]
