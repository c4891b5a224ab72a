// The demands of a reading, in any order of its rows: laws alone, so that an edit of a definition or of code does not prove them.
#![tactic(auto)]
