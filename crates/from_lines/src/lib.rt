// From the lines that the page reader takes to a page: the demands, of the program's own list. There is no code here.
#![tactic(auto)]
