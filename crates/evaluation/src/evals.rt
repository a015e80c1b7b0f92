// The roots' values, written where a caller reads them.
ghost use Rattle.std.specs.Prelude.{◌≡◌, ℕ, ◌+◌, ◌*◌, ◌<◌, ◌≤◌, length, get_or};
ghost use Rattle.evaluation.specs.Writes.{RootIn, WritesRoot, RootsIn, WritesRoots};

use extension::extensions_goldilocks::Ext;
use field::goldilocks::Fp;

// Root c below num_base goes to base_evals, every other to ext_evals at its own number.
fn write_root(
    c: usize,
    leading: usize,
    root: usize,
    room: &[u64],
    bases: &mut [u64],
    exts: &mut [u64],
)
    requires { RootIn c leading root (length room.now) (length bases.old) (length exts.old) }
    ensures { WritesRoot c leading root room.now bases.old bases.new exts.old exts.new }
{
    let at = 4 * root + 1;
    if c < leading {
        bases[c] = Fp::reduce(room[at]);
    } else {
        let v = Ext::load(room, at).reduce();
        v.store(exts, 3 * c);
    }
}

// Lent roots may be more than count. The one for slots reads by class and shares the loop alone.
pub fn write_roots(
    count: usize,
    leading: usize,
    roots: &[u32],
    room: &[u64],
    bases: &mut [u64],
    exts: &mut [u64],
)
    requires { RootsIn count leading roots.now (length room.now) (length bases.old) (length exts.old) }
    ensures { WritesRoots count leading roots.now room.now bases.old bases.new exts.old exts.new }
{
    for c in 0..count {
        let root = roots[c] as usize;
        write_root(c, leading, root, room, bases, exts);
    }
}
