// Packed indices for the host.
ghost use Rattle.std.specs.Prelude.{◌≡◌, length};
ghost use Rattle.error.specs.Numbers.{if_completed};
ghost use Rattle.bitpack.specs.Layout.{packed_bytes, unpacked_indices};
ghost use Rattle.bitpack.specs.Answers.{packable, unpackable};
ghost use Rattle.ffi_crossing.specs.Crossing.{found, crossed, none};

use ffi_crossing::put_answer;

// Indices into `output`, which must be as long as their packing.
#[unsafe(no_mangle)]
pub extern "C" fn fib_pack_indices(
    indices: &[u32],
    width: u8,
    output: &mut [u8],
    whole: &mut [u64; 4],
    real: &mut [f64; 2],
) -> u32
    ensures { let o = packable indices.now width (length output.old) in
        (found result whole.new real.new ≡ crossed none o)
        × (output.new ≡ if_completed o (packed_bytes indices.now width) output.old) }
{
    let packed = bitpack::pack_indices(indices, width, output);
    put_answer(packed, whole, real)
}

// The `count` indices of a packing into `output`, which must have room for just these.
#[unsafe(no_mangle)]
pub extern "C" fn fib_unpack_indices(
    bytes: &[u8],
    count: u64,
    width: u8,
    output: &mut [u32],
    whole: &mut [u64; 4],
    real: &mut [f64; 2],
) -> u32
    ensures { let o = unpackable bytes.now count width (length output.old) in
        (found result whole.new real.new ≡ crossed none o)
        × (output.new
        ≡ if_completed o (unpacked_indices bytes.now count width) output.old) }
{
    let unpacked = bitpack::unpack_indices(bytes, count, width, output);
    put_answer(unpacked, whole, real)
}
