// Compact frames for the host.
ghost use Rattle.std.specs.Prelude.{◌≡◌};
ghost use Rattle.error.specs.Numbers.{if_completed};
ghost use Rattle.compact.specs.Frame.{writing, frame_of, parsed};
ghost use Rattle.ffi_crossing.specs.Crossing.{found, crossed, none};
ghost use Rattle.ffi.specs.Frames.{lengths_in};

use ffi_crossing::{put, put_answer, put_refusal};

// A frame into `output`, which must be as long as it.
#[unsafe(no_mangle)]
pub extern "C" fn fib_write_frame(
    width: u8,
    count: u32,
    norm: &[u8],
    indices: &[u8],
    output: &mut [u8],
    whole: &mut [u64; 4],
    real: &mut [f64; 2],
) -> u32
    ensures { let o = writing norm.now indices.now output.old in
        (found result whole.new real.new ≡ crossed none o)
        × (output.new
        ≡ if_completed o (frame_of width count norm.now indices.now) output.old) }
{
    let written = compact::write_compact(width, count, norm, indices, output);
    put_answer(written, whole, real)
}

// Width, count, and the lengths of norm and indices in `whole`.
// Kept: matched here, since the lengths are read off the bytes, which a frame alone does not hold.
#[unsafe(no_mangle)]
pub extern "C" fn fib_parse_frame(bytes: &[u8], whole: &mut [u64; 4], real: &mut [f64; 2]) -> u32
    ensures { found result whole.new real.new
        ≡ crossed lengths_in (parsed bytes.now) }
{
    match compact::parse_compact(bytes) {
        Ok(frame) => {
            let norm = compact::norm_part(bytes, frame);
            let indices = compact::index_part(bytes, frame);
            let lengths = [
                frame.width as u64,
                frame.block_count as u64,
                norm.len() as u64,
                indices.len() as u64,
            ];
            put(0, lengths, [0.0; 2], whole, real)
        }
        Err(refusal) => put_refusal(refusal, whole, real),
    }
}
