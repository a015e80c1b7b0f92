// The gap report: the constraints below the root count whose root is node 0, which is what a gap is filled with.
ghost use Rattle.std.specs.Prelude.{◌≡◌};
ghost use Rattle.gaps.specs.Gaps.{no_root, GapsAnswer};

use builder::ir_builder::IrBuilder;
use ir::refusal::Refusal;
use selection::places::list_places;

// The one place of the rule: node 0 is what a gap is filled with.
fn is_gap(root: u32) -> bool
    ensures { result ≡ no_root root }
{
    root == 0
}

// Each constraint whose root is node 0, ascending, written to the caller's room, and how many: 1, then 10. A refusal
// writes nothing.
pub fn gap_report(builder: IrBuilder, roots: &[u32], out: &mut [u64]) -> Result<usize, Refusal>
    ensures { GapsAnswer roots.now builder.roots out.old out.new result }
{
    let k = builder.roots;
    if roots.len() < k {
        return Err(Refusal::ShortMemory);
    }
    list_places(&roots[..k], is_gap, |c| c as u64, out)
}
