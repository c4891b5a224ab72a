// What it is for a state of elimination to hold rows, and that it does after each row: laws alone, so that an edit of the code does not prove them.
#![tactic(auto)]
