// The choices of a profile from their numbers. specs/Choices.antt has the numbers, and what an unknown one counts as.
// Kept: `From<u8>` of a choice belongs to the crate of the choice, and what an unknown number counts as to the exports.
ghost use Rattle.std.specs.Prelude.{◌≡◌};
ghost use Rattle.ffi_profile.specs.Choices.{norm_format_at, source_mode_at, radius_method_at, radius_method_beside, direction_method_at, policy_at};

use profile::{DirectionMethod, EmptyCellPolicy, NormFormat, RadiusMethod, SourceMode};

pub fn norm_format_at(number: u8) -> NormFormat
    ensures { result ≡ norm_format_at number }
{
    match number {
        0 => NormFormat::Fp16Paper,
        _ => NormFormat::F32Reference,
    }
}

pub fn source_mode_at(number: u8) -> SourceMode
    ensures { result ≡ source_mode_at number }
{
    match number {
        0 => SourceMode::CanonicalSphericalBeta,
        _ => SourceMode::ReferenceGaussianProjection,
    }
}

fn radius_method_at(number: u8) -> RadiusMethod
    ensures { result ≡ radius_method_at number }
{
    match number {
        0 => RadiusMethod::BetaQuantile,
        1 => RadiusMethod::K2ClosedForm,
        _ => RadiusMethod::LargeDSingleShellExplicit,
    }
}

// The radius method of a pair, which an unknown direction makes unfit too.
pub fn radius_method_beside(direction: u8, number: u8) -> RadiusMethod
    ensures { result ≡ radius_method_beside direction number }
{
    if 2 < direction {
        return RadiusMethod::LargeDSingleShellExplicit;
    }
    radius_method_at(number)
}

pub fn direction_method_at(number: u8) -> DirectionMethod
    ensures { result ≡ direction_method_at number }
{
    match number {
        0 => DirectionMethod::FibonacciSpiral,
        1 => DirectionMethod::FibonacciSphere,
        _ => DirectionMethod::RobertsKronecker,
    }
}

pub fn policy_at(number: u8) -> EmptyCellPolicy
    ensures { result ≡ policy_at number }
{
    match number {
        0 => EmptyCellPolicy::SplitHighestDistortion,
        _ => EmptyCellPolicy::FailClosed,
    }
}
