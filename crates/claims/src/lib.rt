// Demand 3 as one claim, in specs/Demand3.antt. There is no code here.
#![tactic(auto)]
