// Counts at their limits, with short memory: the most that may be gets 1, and one more gets 8 or 9. For nodes these are
// figures of document 01.
ghost use Rattle.std.specs.Prelude.{◌<◌, ◌^◌};

use super::calls::hold_calls;
use super::line::{Case, NONE};
use extension::extensions_goldilocks::Ext;
use ir::frame::Shape;
use ir::program::Counts;
use sample::line::Line;
use sample::report::report;
use std::io;

// Document 01's numbers, written out: the code's own constants are what is tried.
const MOST: usize = 536870911;

const MOST32: usize = 4294967295;

// A case of counts alone, with one node's word and one root lent, and a line that has the answers only.
fn limit(rt: &impl Print, name: &str, count: usize, counts: Counts, answer: u64) -> io::Result<()> {
    let short = [0u32; 1];
    let case = Case {
        counts,
        shape: Shape {
            steps: 0,
            main: 0,
            aux: 0,
            challenges: 0,
            alphas: 0,
        },
        offset: Ext { limbs: [0, 0, 0] },
        nodes: &short,
        bases: &[],
        exts: &[],
        roots: &short,
        main: &[],
        aux: &[],
        challenges: &[],
        alphas: &[],
        wide: &[],
    };
    let answers = [answer; 5];
    print!(rt; "{name} {count} and answer {answer}")?;
    report(rt, hold_calls(&mut Line::new(&answers), &case))
}

// The most of something, and one more, which is refused.
fn around<F: Fn(usize) -> Counts>(
    rt: &impl Print,
    name: &str,
    most: usize,
    refusal: u64,
    counts: F,
) -> io::Result<()>
    requires fits { most < 2 ^ 32 }
    requires callable { F.IsAlwaysCallable counts }
{
    limit(rt, name, most, counts(most), 1)?;
    limit(rt, name, most + 1, counts(most + 1), refusal)
}

pub fn hold_limits(rt: &impl Print) -> io::Result<()> {
    around(rt, "nodes", MOST, 8, |nodes| Counts { nodes, ..NONE })?;
    around(
        rt,
        "base constants",
        MOST,
        8,
        |bases| Counts { bases, ..NONE },
    )?;
    around(
        rt,
        "extension constants",
        MOST,
        8,
        |exts| Counts { exts, ..NONE },
    )?;
    around(rt, "roots", MOST32, 9, |roots| Counts { roots, ..NONE })?;
    let num_base = MOST32 + 1;
    limit(rt, "num_base", num_base, Counts { num_base, ..NONE }, 9)
}
