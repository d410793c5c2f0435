// The paper's definition of a transaction, to be held beside document 01. There is no code here: the files of
// `specs/` stand in the paper's order, and the contracts of the device cite them.
#![tactic(auto)]
