use chart::{Chart, Refusal};
use drawn::Drawn;
use std::fmt;
use std::test::Fail;
use text::{read, write};

/// A chart that stands before a text is read.
fn standing() -> Result<Drawn, Refusal> {
    let mut chart = Drawn::new();
    chart.place(1, 3)?;
    chart.join(0, 0, 77)?;
    Ok(chart)
}

/// The two are equal; `what` names the case in which they are not.
fn same<T: Copy + PartialEq + fmt::Debug>(got: T, wanted: T, what: &str) -> Result<(), Fail> {
    if got == wanted {
        Ok(())
    } else {
        Err(Fail::new(format_args!("{what}: {got:?} in place of {wanted:?}")))
    }
}

/// Reading the text is refused with that number at that line, and leaves the chart as it stood; `what` names the case.
pub fn refused(text: &[u8], number: u8, line: usize, what: &str) -> Result<(), Fail> {
    let mut chart = standing()?;
    let Err(misread) = read(&mut chart, text) else {
        return Err(Fail::new(format_args!("{what}: the text was read")));
    };
    same(misread.refusal.number(), number, what)?;
    same(misread.line, line, what)?;
    same(chart.size(), 1, what)?;
    same(chart.colour(0), Some(3), what)?;
    same(chart.move_count(), 1, what)
}

/// The text is read, and written back as the same bytes.
pub fn accepted(text: &[u8], vertices: usize, moves: usize) -> Result<(), Fail> {
    let mut chart = standing()?;
    read(&mut chart, text)?;
    same(chart.size(), vertices, "vertices")?;
    same(chart.move_count(), moves, "moves")?;
    written_back(&chart, text)
}

/// The chart is written as the text, and the byte behind it is left as it stood.
pub fn written_back(chart: &Drawn, text: &[u8]) -> Result<(), Fail> {
    let mut out = [7u8; 24000];
    let length = write(chart, &mut out)?;
    same(length, text.len(), "bytes")?;
    same(
        out.get(length).copied(),
        Some(7),
        "the byte behind the text",
    )?;
    same(out.get(..length), Some(text), "the text")
}
