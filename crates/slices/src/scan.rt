// The scan for the first value that fails a test: eight at a time while all pass, then one at a time.
ghost use Rattle.std.specs.Prelude.{◌≡◌, ℕ, ◌≤◌, ◌<◌, ◌*◌, ◌+◌, Bool, true, not, length, slice_index_or};
ghost use Rattle.std.specs.Float.Ieee.Scale.{finite};
ghost use Rattle.slices.specs.First.{first_where};
ghost use Rattle.slices.specs.Limit.{within};

// A test of one value.
pub trait Test<T> {
    ghost passes: { Self → T → Bool };

    fn passes(self, x: T) -> bool
        ensures { result ≡ passes self x };
}

// At most the limit in size; a NaN is not.
#[derive(Clone, Copy)]
pub struct Within {
    pub limit: f64,
}

impl Test<f64> for Within {
    ghost passes = { λ test x. within test.limit x };

    fn passes(self, x: f64) -> bool {
        let size = if -x < x { x } else { -x };
        size <= self.limit
    }
}

// Neither a NaN nor an infinity.
#[derive(Clone, Copy)]
pub struct Finite;

impl Test<f32> for Finite {
    ghost passes = { λ test x. finite x };

    fn passes(self, x: f32) -> bool {
        ieee::is_finite_f32(x)
    }
}

// Whether the eight values from `at` on all pass. No test waits for another, so that the processor makes several at once.
fn eight_pass<T: Copy, C: Test<T> + Copy>(s: &[T], at: usize, test: C) -> bool
    requires { at + 8 ≤ length s.now }
    ensures { result ≡ true → (j : ℕ) (d : T) → j < 8 → C.passes test (slice_index_or s.now (at + j) d) ≡ true }
{
    test.passes(s[at])
        & test.passes(s[at + 1])
        & test.passes(s[at + 2])
        & test.passes(s[at + 3])
        & test.passes(s[at + 4])
        & test.passes(s[at + 5])
        & test.passes(s[at + 6])
        & test.passes(s[at + 7])
}

// How many values, counted in eights, come before the first eight that don't all pass.
fn eights_passed<T: Copy, C: Test<T> + Copy>(s: &[T], test: C) -> usize
    ensures upper_bound { result ≤ length s.now }
    ensures by_index { (j : ℕ) (d : T) → j < result → C.passes test (slice_index_or s.now j d) ≡ true }
{
    for turn in 0..s.len() / 8 {
        if !eight_pass(s, 8 * turn, test) {
            return 8 * turn;
        }
    }
    s.len() / 8 * 8
}

// The first value that fails the test.
pub fn first_failing<T: Copy, C: Test<T> + Copy>(s: &[T], test: C) -> Option<usize>
    ensures { (d : T) → result ≡ first_where (λ i. not (C.passes test (slice_index_or s.now i d))) (length s.now) }
{
    for place in eights_passed(s, test)..s.len() {
        if !test.passes(s[place]) {
            return Some(place);
        }
    }
    None
}
