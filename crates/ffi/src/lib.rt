// Entry points for the Rust host: conversions, the root, packing, frames, profiles, rotations and `mse`; `ffi_codes` and
// `ffi_training` have the others. Each calls the library and hands the answer over: it returns 0 or the number of a
// refusal, and writes the values of the refusal, or the results that are numbers, to `whole` and `real`.
#![tactic(auto)]

mod arithmetic;
mod frames;
mod linear;
mod packing;
mod profiles;
