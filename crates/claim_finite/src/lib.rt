// Every arithmetic result of an update is finite: specs/Finite.antt states it,
// proofs/UpdateLaw.antt proves it of every call that passes its checks. No code.
#![tactic(auto)]
