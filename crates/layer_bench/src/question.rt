use chart::Chart;

/// A question of a vertex, or of a move of it. What is said comes down to a number.
pub trait Question {
    const WORD: &'static str;

    /// How many questions of a chart it consists of.
    const PARTS: u128 = 1;

    fn ask<C: Chart>(chart: &C, vertex: usize, number: usize) -> Option<usize>;

    /// How many times it is asked about a vertex.
    fn times_at<C: Chart>(_chart: &C, _vertex: usize) -> usize {
        1
    }

    /// Of which vertex it is asked next, after what was said.
    fn next(size: usize, vertex: usize, said: usize) -> usize {
        let next = vertex.wrapping_add(1 + said % 2);
        if next < size { next } else { 0 }
    }
}

/// Asks for the size and for the height.
pub struct Size;

pub struct Owner;

pub struct Colour;

pub struct Degree;

pub struct Step;

/// Asks for a name, and looks it up.
pub struct Name;

impl Question for Size {
    const WORD: &'static str = "size, height";

    const PARTS: u128 = 2;

    fn ask<C: Chart>(chart: &C, _vertex: usize, _number: usize) -> Option<usize> {
        Some(chart.size() ^ chart.height() as usize)
    }
}

impl Question for Owner {
    const WORD: &'static str = "owner";

    fn ask<C: Chart>(chart: &C, vertex: usize, _number: usize) -> Option<usize> {
        chart.owner(vertex).map(|player| u32::from(player) as usize)
    }
}

impl Question for Colour {
    const WORD: &'static str = "colour";

    fn ask<C: Chart>(chart: &C, vertex: usize, _number: usize) -> Option<usize> {
        chart.colour(vertex).map(usize::from)
    }
}

impl Question for Degree {
    const WORD: &'static str = "degree";

    fn ask<C: Chart>(chart: &C, vertex: usize, _number: usize) -> Option<usize> {
        chart.degree(vertex)
    }
}

impl Question for Step {
    const WORD: &'static str = "move";

    fn ask<C: Chart>(chart: &C, vertex: usize, number: usize) -> Option<usize> {
        chart.move_at(vertex, number).map(|step| step.target)
    }

    fn times_at<C: Chart>(chart: &C, vertex: usize) -> usize {
        chart.degree(vertex).unwrap_or(0)
    }

    fn next(_size: usize, _vertex: usize, said: usize) -> usize {
        said
    }
}

impl Question for Name {
    const WORD: &'static str = "name, find";

    const PARTS: u128 = 2;

    fn ask<C: Chart>(chart: &C, vertex: usize, _number: usize) -> Option<usize> {
        chart.find(chart.name(vertex)?)
    }
}
