// Vectors over two elements: what a sum is, which vectors are sums of given ones, and how many can be independent.
// There is no code here: the definitions stand in specs/, the laws in proofs/.
#![tactic(auto)]
