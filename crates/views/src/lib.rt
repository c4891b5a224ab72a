// What each write in a state does to what the state tells: laws alone, so that an edit of the code does not prove them.
#![tactic(auto)]
