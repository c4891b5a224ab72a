// What slots tell once the rows with role 2 are in: laws alone, so that an edit of the code does not prove them.
#![tactic(auto)]
