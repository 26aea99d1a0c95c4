// The search for four blocks at once over codewords of finite binary32 values: what the encoder asks for. For one block
// it is `Codewords::search`.
#![tactic(auto)]

ghost use Rattle.std.specs.Prelude.{◌≡◌, ◌*◌, length};
ghost use Rattle.lloyd_search.specs.Distance.{row_of};
ghost use Rattle.lloyd_search_f32.specs.Four.{four_chosen};

use lloyd_search::{Choice, Codewords, NONE_PASSED};

// Public only for the crates above: the choices for four blocks that stand one after another. Each codeword is widened
// once for the four.
pub fn search_four_f32(codewords: Codewords<f32>, blocks: &[f64]) -> [Choice; 4]
    requires { length blocks.now ≡ 4 * codewords.dim }
    ensures { let k = codewords.entry.dim in
        result ≡ four_chosen k codewords.entry.count (row_of k codewords.entry.values.now) (row_of k blocks.now) }
{
    let k = codewords.dim;
    let mut best = [NONE_PASSED; 4];
    for i in 0..codewords.count {
        let at = i * k;
        let far = lloyd_search::distances_from(blocks, 0, &codewords.values[at..at + k]);
        best = [
            lloyd_search::nearer(best[0], i, far[0]),
            lloyd_search::nearer(best[1], i, far[1]),
            lloyd_search::nearer(best[2], i, far[2]),
            lloyd_search::nearer(best[3], i, far[3]),
        ];
    }
    best
}
