// The order of write episodes that touch no byte in common does not matter: the user's demand 3, a theorem over the
// paper's definition of a transaction, which `device::transact` is proved to equal. There is no code here.
#![tactic(auto)]
