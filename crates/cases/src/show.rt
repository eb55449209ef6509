// How answers are printed: numbers as two hex digits for each of their bytes, and a block of bytes as what has changed in it.
use std::fmt;

// A number that is printed with two hex digits for each of its bytes.
pub trait Number: fmt::Radix + Copy {
    const DIGITS: usize;
}

impl Number for u8 {
    const DIGITS: usize = 2;
}

impl Number for u16 {
    const DIGITS: usize = 4;
}

// Numbers with nothing between them.
#[derive(Clone, Copy)]
pub struct Hex<'a, T>(pub &'a [T]);

impl<T: Number> fmt::Display for Hex<'_, T> {
    fn fmt<W: fmt::Write>(&self, f: &mut fmt::Formatter<W>) -> fmt::Result {
        let digits = T::DIGITS;
        for n in self.0 {
            write!(f, "{n:0digits$x}")?;
        }
        Ok(())
    }
}

// Numbers that stand apart.
#[derive(Clone, Copy)]
pub struct Longs<'a>(pub &'a [u32]);

impl fmt::Display for Longs<'_> {
    fn fmt<W: fmt::Write>(&self, f: &mut fmt::Formatter<W>) -> fmt::Result {
        for n in self.0 {
            write!(f, " {n:08x}")?;
        }
        Ok(())
    }
}

// Rows of six, each behind the number of its first entry; one that repeats the row above it is left out.
#[derive(Clone, Copy)]
pub struct Rows<'a>(pub &'a [u32]);

impl fmt::Display for Rows<'_> {
    fn fmt<W: fmt::Write>(&self, f: &mut fmt::Formatter<W>) -> fmt::Result {
        let mut above: &[u32] = &[];
        for (i, row) in self.0.chunks(6).enumerate() {
            if row != above {
                write!(f, " +{:06x}:{}", 6 * i, Longs(row))?;
            }
            above = row;
        }
        Ok(())
    }
}

// Each run of bytes that differ from the old ones, with the address of its first; mark says of what block.
#[derive(Clone, Copy)]
pub struct Changes<'a> {
    pub mark: char,
    pub bytes: &'a [u8],
    pub old: &'a [u8],
}

impl fmt::Display for Changes<'_> {
    fn fmt<W: fmt::Write>(&self, f: &mut fmt::Formatter<W>) -> fmt::Result {
        let mark = self.mark;
        let mut in_run = false;
        for (i, (byte, old)) in self.bytes.iter().zip(self.old).enumerate() {
            let differs = byte != old;
            if differs {
                if !in_run {
                    write!(f, " {mark}{i:06x}:")?;
                }
                write!(f, "{byte:02x}")?;
            }
            in_run = differs;
        }
        Ok(())
    }
}
