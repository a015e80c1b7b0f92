// The library's structs, from the numbers that a call is given.
ghost use Rattle.std.specs.Prelude.{◌≡◌};
ghost use Rattle.host_answer.specs.Numbers.{counts, shape, blob_counts};

use blob_rules::blob::BlobCounts;
use ir::frame::Shape;
use ir::program::Counts;

pub fn counts_of(n: usize, b: usize, wide: usize, r: usize, leading: usize) -> Counts
    ensures { result ≡ counts n b wide r leading }
{
    Counts {
        nodes: n,
        bases: b,
        exts: wide,
        roots: r,
        num_base: leading,
    }
}

pub fn shape_of(steps: usize, width: usize, auxes: usize, rap: usize, powers: usize) -> Shape
    ensures { result ≡ shape steps width auxes rap powers }
{
    Shape {
        steps,
        main: width,
        aux: auxes,
        challenges: rap,
        alphas: powers,
    }
}

pub fn blob_counts_of(n: u32, b: u32, x: u32, r: u32, leading: u32, bs: u32, xs: u32) -> BlobCounts
    ensures { result ≡ blob_counts n b x r leading bs xs }
{
    BlobCounts {
        nodes: n,
        bases: b,
        exts: x,
        roots: r,
        num_base: leading,
        base_slots: bs,
        ext_slots: xs,
    }
}
