// He and Cai's basis-finding algorithm over numbers. There is no function here: Algorithm 2 of document 000 stands in specs/, and that it
// keeps the rows, sets and uses of a reading in proofs/.
#![tactic(auto)]
