// When a page that a reading gives is confirmed: every picked row has a use. There is no code here: the definitions stand in specs/, the laws in
// proofs/.
#![tactic(auto)]
