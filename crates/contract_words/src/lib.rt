// The words of contracts, on one page: the code's values beside what is lent, as the definitions have them. There is no code here.
#![tactic(auto)]
