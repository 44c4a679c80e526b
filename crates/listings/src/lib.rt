// The listings of the rules that are proved of the definitions: theorems alone.
#![tactic(auto)]
