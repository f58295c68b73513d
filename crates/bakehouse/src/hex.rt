use std::fmt;

/// Bytes as hex digits, in groups of four bytes, four groups to a line.
#[derive(Clone, Copy)]
pub struct Hex<'a>(pub &'a [u8]);

impl fmt::Display for Hex<'_> {
    fn fmt<W: fmt::Write>(&self, f: &mut fmt::Formatter<W>) -> fmt::Result {
        for line in self.0.chunks(16) {
            write!(f, "\n     ")?;
            for group in line.chunks(4) {
                write!(f, " ")?;
                for byte in group {
                    write!(f, "{byte:02x}")?;
                }
            }
        }
        Ok(())
    }
}

/// Bytes as the characters that they stand for.
#[derive(Clone, Copy)]
pub struct Text<'a>(pub &'a [u8]);

impl fmt::Display for Text<'_> {
    fn fmt<W: fmt::Write>(&self, f: &mut fmt::Formatter<W>) -> fmt::Result {
        for byte in self.0 {
            write!(f, "{}", char::from(*byte))?;
        }
        Ok(())
    }
}
