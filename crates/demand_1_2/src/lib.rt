// What the paper's definition of a transaction has to be: the user's demands, each a theorem in a file of its
// name. There is no code here. The code is proved equal to that same definition.
#![tactic(auto)]
