use chart::Refusal;
use std::fmt;

/// Why a text was not read: the refusal, and the line that it is about, counted from 1.
#[derive(Clone, Copy, PartialEq, Eq, Debug)]
pub struct Misread {
    pub line: usize,
    pub refusal: Refusal,
}

impl fmt::Display for Misread {
    fn fmt<W: fmt::Write>(&self, f: &mut fmt::Formatter<W>) -> fmt::Result {
        let number = self.refusal.number();
        let line = self.line;
        write!(f, "refused={number},{line}")
    }
}
