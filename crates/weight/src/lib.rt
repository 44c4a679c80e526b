// The weight of a text, which no pass raises: theorems alone.
#![tactic(auto)]
