// What it is for a store to be whole: opening makes it so, every offer keeps it, and asking a whole store is a fresh reading of its rows. Laws alone, so that
// an edit of the code does not prove them.
#![tactic(auto)]
