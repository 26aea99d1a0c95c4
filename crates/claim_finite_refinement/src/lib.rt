// Every arithmetic result of a refinement is finite: specs/FiniteRefinement.antt states it,
// proofs/FiniteRefinementLaw.antt proves it of every job that passes its checks. No code.
#![tactic(auto)]
