// A line of numbers, from which a case is read, and to which what its calls give is held.
ghost use Rattle.std.specs.Prelude.{◌≡◌, ◌+◌, ◌-◌, ◌<◌, ◌≤◌, length, slice_get, slice_range, unwrap_or, Some, IfOk, OnOk, All, true};
ghost use Rattle.std.specs.Iterator.{at_most};

use super::fault::Fault;
use super::word::Word;
use extension::extensions_goldilocks::Ext;
use ir::frame::Shape;
use std::ops::Range;

// Where the line ends that starts at a place; its first number says how many follow.
pub fn line_end(numbers: &[u64], at: usize) -> usize
    requires { at < length numbers.now }
    ensures { at < result }
{
    let count = numbers[at] as usize;
    (at + 1).saturating_add(count)
}

// The lines of a sample, one after another. One that the sample's end cuts off comes as a line of no numbers.
#[derive(Drop)]
pub struct Lines<'a> {
    numbers: &'a [u64],
    at: usize,
}

impl<'a> Lines<'a> {
    pub fn new(numbers: &'a [u64]) -> Lines<'a>
        ensures all { result.numbers.now ≡ numbers.now }
        ensures start { result.at ≡ 0 }
    {
        Lines { numbers, at: 0 }
    }
}

impl<'a> Iterator for Lines<'a> {
    type Item = &'a [u64];

    // A line has its first number at least.
    ghost remaining = { λ s. at_most (length s.numbers.now - s.at) };

    fn next(&mut self) -> Option<&'a [u64]> {
        if self.numbers.len() <= self.at {
            return None;
        }
        let end = line_end(self.numbers, self.at);
        let line = self.numbers.get(self.at..end).unwrap_or(&[]);
        self.at = end;
        Some(line)
    }
}

#[derive(Drop)]
pub struct Line<'a> {
    numbers: &'a [u64],
    at: usize,
}

impl<'a> Line<'a> {
    pub fn new(numbers: &'a [u64]) -> Line<'a>
        ensures all { result.numbers.now ≡ numbers.now }
        ensures start { result.at ≡ 0 }
    {
        Line { numbers, at: 0 }
    }

    // The next number, or 0 past the end.
    pub fn number(&mut self) -> u64
        ensures { result ≡ unwrap_or (slice_get self.old.numbers.now self.old.at) 0 }
    {
        let number = self.numbers.get(self.at).copied().unwrap_or(0);
        self.at = self.at.saturating_add(1);
        number
    }

    pub fn count(&mut self) -> usize
        ensures { result ≡ unwrap_or (slice_get self.old.numbers.now self.old.at) 0 }
    {
        self.number() as usize
    }

    // The shape of a frame: five numbers.
    pub fn shape(&mut self) -> Shape {
        Shape {
            steps: self.count(),
            main: self.count(),
            aux: self.count(),
            challenges: self.count(),
            alphas: self.count(),
        }
    }

    // An extension value: three numbers.
    pub fn ext(&mut self) -> Ext {
        Ext {
            limbs: [self.number(), self.number(), self.number()],
        }
    }

    // The next numbers, which have to be there.
    pub fn table(&mut self, count: usize) -> Result<&'a [u64], Fault>
        ensures { IfOk result (λ table. table.now ≡ slice_range self.old.numbers.now self.old.at (self.old.at + count)) }
    {
        let end = self.at.saturating_add(count);
        let table = self.numbers.get(self.at..end).ok_or(Fault::Cut)?;
        self.at = end;
        Ok(table)
    }

    // Holds a word to the next number.
    pub fn hold(&mut self, found: u64) -> Result<(), Fault>
        ensures agrees { OnOk result (slice_get self.old.numbers.now self.old.at ≡ Some found) }
        ensures next { OnOk result (self.new.at ≡ self.old.at + 1) }
    {
        let at = self.at;
        let wanted = *self.numbers.get(at).ok_or(Fault::Cut)?;
        if wanted != found {
            return Err(Fault::Differs { at, wanted, found });
        }
        self.at = at + 1;
        Ok(())
    }

    // All words are as they were.
    pub fn hold_kept<W: Word>(&self, words: &[W]) -> Result<(), Fault>
        ensures { OnOk result (All (λ word. W.eq word W.KEPT ≡ true) words.now) }
    {
        if words.iter().all(|word| *word == W::KEPT) {
            Ok(())
        } else {
            Err(Fault::Touched { at: self.at })
        }
    }

    // The words of a range are the next numbers, and all others are as they were.
    pub fn hold_written<W: Word>(
        &mut self,
        words: &[W],
        written: Range<usize>,
    ) -> Result<(), Fault> {
        let end = written.end.min(words.len());
        let start = written.start.min(end);
        self.hold_kept(&words[..start])?;
        for word in &words[start..end] {
            self.hold((*word).into())?;
        }
        self.hold_kept(&words[end..])
    }

    // The first words are 0, and all others are as they were. The line says nothing of them.
    pub fn hold_cleared<W: Word>(&self, words: &[W], count: usize) -> Result<(), Fault> {
        let (cleared, kept) = words.split_at(count.min(words.len()));
        if cleared.iter().any(|word| (*word).into() != 0u64) {
            return Err(Fault::Uncleared { at: self.at });
        }
        self.hold_kept(kept)
    }

    // Nothing is left.
    pub fn end(&self) -> Result<(), Fault>
        ensures { OnOk result (self.now.at ≡ length self.now.numbers.now) }
    {
        if self.at == self.numbers.len() {
            Ok(())
        } else {
            Err(Fault::Spare)
        }
    }
}
