// That the working of a store is current: that of the rows in its list, and stays so with each row. Laws alone, so that an edit of the code does not
// prove them.
#![tactic(auto)]
