// What the indices of a frame come from. A file of its own, since specs/Search.antt is over it.
ghost use Rattle.std.specs.Prelude.{◌≡◌, ◌*◌, ◌^◌, ◌≤◌, length};

use lloyd_search::Codewords;

// So many blocks of values that stand one after another, the codewords that they are searched among, and the width of
// an index, which holds the number of each codeword.
#[derive(Clone, Copy)]
pub struct Search<'c, 'v> {
    pub codewords: Codewords<'c, f32>,
    pub values: &'v [f64],
    pub count: u32,
    pub width: u8,
    ghost blocks: { length values.now ≡ count * codewords.dim },
    ghost some: { 1 ≤ codewords.count },
    ghost fits: { codewords.count ≤ 2 ^ width },
    ghost narrow: { width ≤ 20 },
}
