// What solving gives for the picked rows of a list, in the words of the reading: laws alone, so that an edit of the code does not prove them.
#![tactic(auto)]
