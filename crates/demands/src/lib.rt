// What is demanded of whole listings: the law of a cut, for lines and for texts; that a line is taken only into a call line below; and the numbers of answers: theorems alone.
#![tactic(auto)]
