// What holds of codes, said of their bytes, and of norms: of every code that `encode` writes (specs/Codes.antt), of every norm
// (Norms.antt), of frames that are converted (Converted.antt), and that a code has one frame (OneFrame.antt). Each has its
// proof in proofs/. No code.
#![tactic(auto)]
