// Demand 3 on updates called alone, one claim about a whole history of them: specs/History.antt states it,
// proofs/HistoryLaw.antt proves it. No code.
#![tactic(auto)]
