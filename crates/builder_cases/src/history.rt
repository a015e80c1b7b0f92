// A history of calls, replayed over tables that are lent as long as its line says: each answer, then the program, then the
// gaps.
use super::perform::{Request, perform_asked};
use super::tables::{BASES, EXT_WORDS, Lengths, NODE_WORDS, PLACES, ROOTS, Tables};
use builder::ir_builder::IrBuilder;
use gaps::gaps::gap_report;
use host_answer::answer::coded_refusal;
use sample::fault::Fault;
use sample::line::Line;
use sample::word::{Word, lent};

// A call's answer and what it gives, which is 0 where it refuses: the builder then stays as it was.
fn replay_call(line: &mut Line, b: IrBuilder, tables: &mut Tables) -> Result<IrBuilder, Fault> {
    let asked = Request::read(line);
    match perform_asked(asked, b, tables) {
        Ok(given) => {
            line.hold(0)?;
            line.hold(given.number)?;
            Ok(given.builder)
        }
        Err(why) => {
            line.hold(coded_refusal(why))?;
            line.hold(0)?;
            Ok(b)
        }
    }
}

fn replay_calls<'a>(
    line: &mut Line,
    count: usize,
    nodes: &'a mut [u32],
    places: &'a mut [u32],
    bases: &'a mut [u64],
    exts: &'a mut [u64],
    roots: &'a mut [u32],
) -> Result<IrBuilder, Fault> {
    let mut tables = Tables {
        nodes,
        places,
        bases,
        exts,
        roots,
    };
    let mut builder = IrBuilder {
        nodes: 0,
        bases: 0,
        exts: 0,
        roots: 0,
    };
    for _ in 0..count {
        builder = replay_call(line, builder, &mut tables)?;
    }
    Ok(builder)
}

fn hold_counts(line: &mut Line, b: IrBuilder) -> Result<(), Fault> {
    line.hold(b.nodes as u64)?;
    line.hold(b.bases as u64)?;
    line.hold(b.exts as u64)?;
    line.hold(b.roots as u64)
}

// The report with room for every gap, at the end.
fn hold_report(line: &mut Line, b: IrBuilder, roots: &[u32]) -> Result<(), Fault> {
    let mut out = [u64::KEPT; ROOTS];
    match gap_report(b, roots, &mut out) {
        Ok(count) => {
            line.hold(count as u64)?;
            line.hold_written(&out, 0..count)
        }
        Err(_) => Err(Fault::NoRoom),
    }
}

// The tables are longer than what is lent of them.
pub fn replay(numbers: &[u64]) -> Result<(), Fault> {
    let mut line = Line::new(numbers);
    let _length = line.number();
    let lengths = Lengths::read(&mut line);
    let calls = line.count();
    let mut nodes = [u32::KEPT; NODE_WORDS];
    let mut places = [u32::KEPT; PLACES];
    let mut bases = [u64::KEPT; BASES];
    let mut exts = [u64::KEPT; EXT_WORDS];
    let mut roots = [u32::KEPT; ROOTS];
    let b = replay_calls(
        &mut line,
        calls,
        lent(&mut nodes, lengths.nodes)?,
        lent(&mut places, lengths.places)?,
        lent(&mut bases, lengths.bases)?,
        lent(&mut exts, lengths.exts)?,
        lent(&mut roots, lengths.roots)?,
    )?;
    hold_counts(&mut line, b)?;
    line.hold_written(&nodes, 0..b.nodes.saturating_mul(4))?;
    line.hold_written(&bases, 0..b.bases)?;
    line.hold_written(&exts, 0..b.exts.saturating_mul(3))?;
    line.hold_written(&roots, 0..b.roots)?;
    hold_report(&mut line, b, &roots)?;
    line.end()
}
