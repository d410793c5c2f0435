// Running the machine over all samples, and finishing, is the paper's transaction. There is no code here: the
// files of `specs/` prove it, one phase at a time, for every record, memory, area and list of samples.
#![tactic(auto)]
