// Packed indices as one value. A file of its own, since specs/Packed.antt is over it.
ghost use Rattle.std.specs.Prelude.{◌*◌, ◌≤◌, length};

// Packed indices: `count` of them, `width` bits each, low bit first.
#[derive(Clone, Copy)]
pub struct PackedIndices<'a> {
    pub bytes: &'a [u8],
    pub width: u8,
    pub count: usize,
    ghost some: { 1 ≤ width },
    ghost narrow: { width ≤ 32 },
    ghost whole: { count * width ≤ 8 * length bytes.now },
}
