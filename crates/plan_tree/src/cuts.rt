// A blob that gets shorter: what it is cut to, and which of its blocks go.
ghost use Rattle.std.specs.Prelude.{◌≡◌};
ghost use Rattle.plan_tree.specs.cuts.{gone_at};

// A length that a blob is cut to, its leaves and its height.
#[derive(Clone, Copy, Drop)]
pub struct Cut {
    pub length: usize,
    pub leaves: usize,
    pub top: usize,
}

// Whether a block of that height and first leaf, which is not the root, goes: past the cut, or on the left edge where the root comes down.
#[tactic(auto, unfolding(crate::specs::cuts::gone_at, meaning::specs::Lists::both, meaning::specs::Lists::pick))]
pub fn is_gone(c: Cut, h: usize, first: usize) -> bool
    ensures { result ≡ gone_at c h first }
{
    c.leaves <= first || (first == 0 && c.top <= h)
}
