// A refinement answers in its smaller work as it did in document 01's:
// specs/Room.antt states it, proofs/RoomLaw.antt proves it. No code.
#![tactic(auto)]
