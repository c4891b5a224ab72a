// That the page of rows does not hang on their order, nor on which rows with one span they are: laws alone, since no function's proof uses them.
#![tactic(auto)]
