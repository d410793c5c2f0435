// Tables as definitions and their laws: rows that decide, constant tables, tables of examples. There is no
// code here.
#![tactic(auto)]
