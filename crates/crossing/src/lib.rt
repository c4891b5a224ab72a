// From written frames to a page: the demands, end to end. There is no code here.
#![tactic(auto)]
