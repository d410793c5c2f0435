// A transaction fed in chunks is the whole transaction: theorems over the definitions of `open`, `feed` and `close`, which the
// device is proved to equal, and over the paper's. There is no code here.
#![tactic(auto)]
