// The shape of a frame, which evaluators and the walk share.
ghost use Rattle.std.specs.Prelude.{◌≡◌};
ghost use Rattle.ir.specs.Shape.{over_shape};

// A rectangular frame: steps of main and aux cells, and the uniforms of a proof.
#[derive(Clone, Copy)]
pub struct Shape {
    pub steps: usize,
    pub main: usize,
    pub aux: usize,
    pub challenges: usize,
    pub alphas: usize,
}

// The most steps, and the most of anything else.
pub const MOST_STEPS: usize = 256;

pub const MOST_COLUMNS: usize = 65536;

#[tactic(auto, unfolding(crate::specs::Shape::over_shape))]
pub fn over_shape(s: Shape) -> bool
    ensures { result ≡ over_shape s }
{
    MOST_STEPS < s.steps
        || MOST_COLUMNS < s.main
        || MOST_COLUMNS < s.aux
        || MOST_COLUMNS < s.challenges
        || MOST_COLUMNS < s.alphas
}
