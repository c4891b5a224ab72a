// Where a state holds the rows that were taken, the tail ends as the reading does: laws alone, so that an edit of the code does not prove them.
#![tactic(auto)]
