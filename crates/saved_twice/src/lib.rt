// The demands, for both versions of a page: laws alone, so that an edit of the code does not prove them.
#![tactic(auto)]
