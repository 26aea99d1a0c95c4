// Demand 3 on refinement, one claim about a whole training job: specs/Refinement.antt states it,
// proofs/RefinementLaw.antt proves it. No code.
#![tactic(auto)]
