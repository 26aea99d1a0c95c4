// The entry points of searching and coding for the Rust host, by the convention of crate ffi.
#![tactic(auto)]

mod codewords;
mod coding;
mod conversion;
mod search;
