// Runs sums of the field on the code and prints each with the words that it gives. The file stdout
// beside this has what document 01 says, and for the sums that it does not list what plain
// arithmetic on whole numbers gives.
#![tactic(auto)]

use extension::extensions_goldilocks::Ext;
use field::goldilocks::Fp;
use std::io;

fn numbers(rt: &impl Print, rows: &[(&str, u64)]) -> io::Result<()> {
    for (name, x) in rows {
        println!(rt; "{name} {x}")?;
    }
    Ok(())
}

fn values(rt: &impl Print, rows: &[(&str, Ext)]) -> io::Result<()> {
    for (name, value) in rows {
        let [x, y, z] = value.limbs;
        println!(rt; "{name} {x} {y} {z}")?;
    }
    Ok(())
}

// The rows of the field that document 01 marks, in the order of the table in crates/lowered/specs/Marked.antt.
fn marked(rt: &impl Print) -> io::Result<()> {
    numbers(
        rt,
        &[
            ("(p-1)(p-1)", Fp::mul(Fp::P - 1, Fp::P - 1)),
            ("2^32 2^32", Fp::mul(1 << 32, 1 << 32)),
            ("2^48 2^48", Fp::mul(1 << 48, 1 << 48)),
            ("const_signed(-1)", Fp::from_i64(-1)),
            ("const_signed(-2^63)", Fp::from_i64(i64::MIN)),
            ("const_base(2^64-1)", Fp::reduce(u64::MAX)),
        ],
    )?;
    let a = Ext { limbs: [1, 2, 3] };
    let b = Ext { limbs: [4, 5, 6] };
    let w = Ext { limbs: [0, 1, 0] };
    let w2 = Ext { limbs: [0, 0, 1] };
    values(rt, &[("(1,2,3)(4,5,6)", a.mul(b)), ("w w^2", w.mul(w2))])
}

// Sums at the edges of the words.
fn edges(rt: &impl Print) -> io::Result<()> {
    let top = u64::MAX;
    numbers(
        rt,
        &[
            ("reduce(p-1)", Fp::reduce(Fp::P - 1)),
            ("reduce(p)", Fp::reduce(Fp::P)),
            ("top+top", Fp::add(top, top)),
            ("(p-1)+1", Fp::add(Fp::P - 1, 1)),
            ("0-top", Fp::sub(0, top)),
            ("top-0", Fp::sub(top, 0)),
            ("-0", Fp::neg(0)),
            ("-p", Fp::neg(Fp::P)),
            ("-top", Fp::neg(top)),
            ("top top", Fp::mul(top, top)),
            ("p top", Fp::mul(Fp::P, top)),
            ("const_signed(2^63-1)", Fp::from_i64(i64::MAX)),
            ("const_signed(0)", Fp::from_i64(0)),
        ],
    )
}

// The extension beyond its marked products.
fn extensions(rt: &impl Print) -> io::Result<()> {
    let a = Ext {
        limbs: [u64::MAX, Fp::P, 3],
    };
    let b = Ext {
        limbs: [4, 5, Fp::P - 1],
    };
    let mut words = [7; 5];
    b.store(&mut words, 1);
    values(
        rt,
        &[
            ("zero", Ext::zero()),
            ("embed(top)", Ext::embed(u64::MAX)),
            ("(top,p,3)+(4,5,p-1)", a.add(b)),
            ("(top,p,3)-(4,5,p-1)", a.sub(b)),
            ("-(top,p,3)", a.neg()),
            ("reduce(top,p,3)", a.reduce()),
            ("(top,p,3)(4,5,p-1)", a.mul(b)),
            ("stored", Ext::load(&words, 0)),
            ("loaded", Ext::load(&words, 2)),
        ],
    )
}

fn main(rt: HostRuntime) -> io::Result<()> {
    marked(&rt)?;
    edges(&rt)?;
    extensions(&rt)
}
