// What document 01's rule of an update means: specs/Rule.antt states it, proofs/RuleLaw.antt proves it. No code.
#![tactic(auto)]
