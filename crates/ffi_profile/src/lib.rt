// A profile as a host hands it in and gets it back: numbers, with its choices by their numbers.
// The functions are public only for the crates of the exports.
#![tactic(auto)]

pub mod choices;

ghost use Rattle.std.specs.Prelude.{◌≡◌};
ghost use Rattle.ffi_profile.specs.Profiles.{profile_from, fields_of};

use profile::FibQuantProfile;

// The profile of these fields.
// Kept: they cross one by one, since a C function takes no Rust enums; inside they are one struct.
pub fn profile_from(
    ambient_dim: u32,
    block_dim: u32,
    codebook_size: u32,
    paper_rate: f64,
    wire_index_bits: u8,
    wire_rate: f64,
    norm_format: u8,
    rotation_seed: u64,
    codebook_seed: u64,
    source_mode: u8,
    radius_method: u8,
    direction_method: u8,
    restarts: u32,
    iterations: u32,
    training_samples: u32,
    empty_cell_policy: u8,
) -> FibQuantProfile
    ensures { result ≡ profile_from ambient_dim block_dim codebook_size paper_rate wire_index_bits
        wire_rate norm_format rotation_seed codebook_seed source_mode radius_method direction_method
        restarts iterations training_samples empty_cell_policy }
{
    FibQuantProfile {
        ambient_dim,
        block_dim,
        codebook_size,
        paper_rate_bits_per_coord: paper_rate,
        wire_index_bits,
        wire_bits_per_coord: wire_rate,
        norm_format: choices::norm_format_at(norm_format),
        rotation_seed,
        codebook_seed,
        source_mode: choices::source_mode_at(source_mode),
        radius_method: choices::radius_method_beside(direction_method, radius_method),
        direction_method: choices::direction_method_at(direction_method),
        lloyd_restarts: restarts,
        lloyd_iterations: iterations,
        training_samples,
        empty_cell_policy: choices::policy_at(empty_cell_policy),
    }
}

// The fields that are no floats, a choice by its number.
pub fn fields_of(profile: FibQuantProfile) -> [u64; 14]
    ensures { result ≡ fields_of profile }
{
    [
        profile.ambient_dim as u64,
        profile.block_dim as u64,
        profile.codebook_size as u64,
        profile.wire_index_bits as u64,
        profile.norm_format as u64,
        profile.rotation_seed,
        profile.codebook_seed,
        profile.source_mode as u64,
        profile.radius_method as u64,
        profile.direction_method as u64,
        profile.lloyd_restarts as u64,
        profile.lloyd_iterations as u64,
        profile.training_samples as u64,
        profile.empty_cell_policy as u64,
    ]
}
