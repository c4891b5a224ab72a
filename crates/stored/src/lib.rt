// The promise of the store: after any calls, asking is a fresh reading of the rows accepted so far. Laws alone.
#![tactic(auto)]
