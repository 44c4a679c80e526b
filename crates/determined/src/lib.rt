// What each public function's contract fixes: theorems alone.
#![tactic(auto)]
