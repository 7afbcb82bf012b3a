ghost use Rattle.std.specs.Prelude.{◌≡◌, ◌++◌, map, length, decimal};
ghost use Rattle.std.specs.List.{flat_map};
ghost use Rattle.chart.specs.Refusals.{outcome};
ghost use Rattle.drawn.specs.Meaning.{sheet};
ghost use Rattle.text.specs.Lines.{spelt, numbers_spelt};
ghost use Rattle.text.specs.Writing.{Adds, vertex_line, move_line, move_lines, text_of, write_outcome, written, vertex_or_none, move_or_none};
ghost use Rattle.text.specs.Pages.{Puts};

use super::lines::end_behind;
use chart::{Chart, Move, Refusal};
use drawn::Drawn;

/// Fills the front of the bytes with the chart's text and answers its
/// length. Where they are too few it refuses and leaves them as they stood.
pub fn write(chart: &Drawn, out: &mut [u8]) -> Result<usize, Refusal>
    ensures answer { outcome result ≡ write_outcome (sheet chart.now) (length out.old) }
    ensures after { out.new ≡ written (sheet chart.now) out.old }
{
    let length = spell(chart, &mut []);
    if length > out.len() {
        return Err(Refusal::ShortBuffer);
    }
    Ok(spell(chart, out))
}

/// Puts the lines of the chart that fit, and answers how long they are together.
fn spell(chart: &Drawn, out: &mut [u8]) -> usize
    ensures { Adds (text_of (sheet chart.now)) out.old 0 out.new result }
{
    let mut page = Page { out, at: 0 };
    page.line(b"vertices=", &[chart.size()]);
    page.vertices(chart);
    page.line(b"moves=", &[chart.move_count()]);
    page.moves(chart);
    page.at
}

/// Bytes that are filled from the front, and where the next would stand: behind all that was put so
/// far, whether it fitted or not.
#[derive(Drop)]
struct Page<'a> {
    out: &'a mut [u8],
    at: usize,
}

impl<'a> Page<'a> {
    /// Puts the line of each vertex.
    fn vertices(&mut self, chart: &Drawn)
        ensures { Puts (flat_map spelt (map vertex_line (sheet chart.now).vertices)) self.old self.new }
    {
        for vertex in 0..chart.size() {
            let owner = owner_number(chart, vertex);
            let colour = colour_number(chart, vertex);
            self.line(b"vertex=", &[owner, colour]);
        }
    }

    /// Puts the lines of the moves, vertex by vertex.
    fn moves(&mut self, chart: &Drawn)
        ensures { Puts (flat_map spelt (move_lines 0 (sheet chart.now).vertices)) self.old self.new }
    {
        for vertex in 0..chart.size() {
            self.moves_of(chart, vertex);
        }
    }

    /// Puts the lines of one vertex's moves.
    fn moves_of(&mut self, chart: &Drawn, vertex: usize)
        ensures { Puts (flat_map spelt (map (move_line vertex) (vertex_or_none (sheet chart.now) vertex).moves)) self.old self.new }
    {
        for number in 0..chart.degree(vertex).unwrap_or(0) {
            let Move { target, cost } = move_or_none(chart, vertex, number);
            self.line(b"move=", &[vertex, target, cost as usize]);
        }
    }

    /// Puts a line of a word and numbers.
    fn line(&mut self, word: &[u8], numbers: &[usize])
        ensures { Puts (word.now ++ numbers_spelt numbers.now) self.old self.new }
    {
        self.put(word);
        for (place, number) in numbers.iter().enumerate() {
            self.number(*number);
            self.put(&[end_behind(numbers.len() - 1 - place)]);
        }
    }

    /// Puts a number in decimal.
    fn number(&mut self, number: usize)
        ensures { Puts (decimal number) self.old self.new }
    {
        if number >= 10 {
            self.number(number / 10);
        }
        self.put(&[b'0' + (number % 10) as u8]);
    }

    /// Puts bytes if they fit, and counts them in any case.
    fn put(&mut self, bytes: &[u8])
        ensures { Puts bytes.now self.old self.new }
    {
        let end = self.at.saturating_add(bytes.len());
        if end <= self.out.len() {
            self.out[self.at..end].copy_from_slice(bytes);
        }
        self.at = end;
    }
}

/// The number of a vertex's owner, 0 for an absent vertex.
fn owner_number(chart: &Drawn, vertex: usize) -> usize
    ensures { result ≡ (vertex_or_none (sheet chart.now) vertex).owner }
{
    chart.owner(vertex).map_or(0, u32::from) as usize
}

/// A vertex's colour, 0 for an absent vertex.
fn colour_number(chart: &Drawn, vertex: usize) -> usize
    ensures { result ≡ (vertex_or_none (sheet chart.now) vertex).colour }
{
    chart.colour(vertex).unwrap_or(0) as usize
}

/// A move, to vertex 0 at no cost where it is absent.
fn move_or_none(chart: &Drawn, vertex: usize, number: usize) -> Move
    ensures { result ≡ move_or_none (sheet chart.now) vertex number }
{
    let none = Move { target: 0, cost: 0 };
    chart.move_at(vertex, number).unwrap_or(none)
}
