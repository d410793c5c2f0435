// Demand 2 for a driver's program: the host half, the device and the host half again, known by their contracts alone. There is no code here: the theorem is in specs/.
#![tactic(auto)]
