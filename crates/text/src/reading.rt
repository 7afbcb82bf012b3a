ghost use Rattle.std.specs.Prelude.{◌≡◌, ℕ, zero, ◌+◌, ◌<◌, ◌≤◌, MatchResult};
ghost use Rattle.chart.specs.Arena.{Arena};
ghost use Rattle.chart.specs.Refusals.{Outcome, refused, number_of};
ghost use Rattle.drawn.specs.Meaning.{sheet};
ghost use Rattle.drawn.specs.Rules.{blank};
ghost use Rattle.text.specs.Reading.{Reads, count_due, vertex_due, move_due, told, left};

use super::lines::numbers_line;
use super::misread::Misread;
use chart::Refusal;
use drawn::Drawn;

/// Replaces the chart by the one that the text draws. A refusal leaves it as it stood.
pub fn read(chart: &mut Drawn, text: &[u8]) -> Result<(), Misread>
    ensures answer { Reads (told result (sheet chart.new)) blank count_due 1 text.now }
    ensures kept { left result (sheet chart.old) (sheet chart.new) }
{
    let mut drawn = Drawn::new();
    draw(&mut drawn, text)?;
    *chart = drawn;
    Ok(())
}

/// Draws on a blank chart what the text says. The chart is lent, since handing it out would copy it
/// once more for each text.
fn draw(chart: &mut Drawn, text: &[u8]) -> Result<(), Misread>
    requires { sheet chart.old ≡ blank }
    ensures { Reads (told result (sheet chart.new)) blank count_due 1 text.now }
{
    let Some(counted) = numbers_line::<1>(text, b"vertices=") else {
        return Err(wrong_line(1));
    };
    let [vertices] = counted.numbers;
    let rest = draw_vertices(chart, counted.rest, vertices, 2)?;
    let line = vertices as usize + 2;
    let Some(counted) = numbers_line::<1>(rest, b"moves=") else {
        return Err(wrong_line(line));
    };
    let [moves] = counted.numbers;
    let rest = draw_moves(chart, counted.rest, moves, line + 1)?;
    if !rest.is_empty() {
        return Err(wrong_line(line + 1 + moves as usize));
    }
    Ok(())
}

fn wrong_line(line: usize) -> Misread
    ensures { (number_of result.refusal ≡ 23) × (result.line ≡ line) }
{
    Misread {
        line,
        refusal: Refusal::WrongLine(line),
    }
}

/// Places the vertices of so many lines, the first of which is numbered `line`, and gives what stands behind them.
fn draw_vertices<'a>(
    chart: &mut Drawn,
    text: &'a [u8],
    count: u32,
    line: usize,
) -> Result<&'a [u8], Misread>
    requires { line ≤ 200000 }
    ensures { MatchResult result
        (λ rest. (end : Outcome Arena) → Reads end (sheet chart.new) (vertex_due zero) (line + count) rest.now → Reads end (sheet chart.old) (vertex_due count) line text.now)
        (λ e. Reads (refused (number_of e.refusal) e.line) (sheet chart.old) (vertex_due count) line text.now) }
{
    let mut rest = text;
    for here in line..line + count as usize {
        let Some(vertex) = numbers_line::<2>(rest, b"vertex=") else {
            return Err(wrong_line(here));
        };
        let [owner, colour] = vertex.numbers;
        chart.place(owner, colour).map_err(|refusal| Misread {
            line: here,
            refusal,
        })?;
        rest = vertex.rest;
    }
    Ok(rest)
}

/// Joins the moves of so many lines, the first of which is numbered `line`, and gives what stands behind them.
fn draw_moves<'a>(
    chart: &mut Drawn,
    text: &'a [u8],
    count: u32,
    line: usize,
) -> Result<&'a [u8], Misread>
    requires { line ≤ 200000 }
    ensures { MatchResult result
        (λ rest. (end : Outcome Arena) → ((low : ℕ) → Reads end (sheet chart.new) (move_due zero low) (line + count) rest.now) → Reads end (sheet chart.old) (move_due count 0) line text.now)
        (λ e. Reads (refused (number_of e.refusal) e.line) (sheet chart.old) (move_due count 0) line text.now) }
{
    let mut rest = text;
    let mut low = 0;
    for here in line..line + count as usize {
        let Some(step) = numbers_line::<3>(rest, b"move=") else {
            return Err(wrong_line(here));
        };
        let [from, to, cost] = step.numbers;
        if from < low {
            return Err(wrong_line(here));
        }
        chart
            .join(from as usize, to as usize, cost)
            .map_err(|refusal| Misread {
                line: here,
                refusal,
            })?;
        low = from;
        rest = step.rest;
    }
    Ok(rest)
}
