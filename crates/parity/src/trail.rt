ghost use Rattle.std.specs.Prelude.{◌*◌, ◌≤◌, length};

use super::ParityGame;
use super::rows::number_at;
use std::ops::Range;

/// Writes into the table, unless the place lies past its end.
fn put(table: &mut [u32], place: usize, value: u32) {
    if let Some(slot) = table.get_mut(place) {
        *slot = value;
    }
}

/// Counts the moves that end at each position.
fn count<G: ParityGame>(game: &G, heads: &mut [u32]) {
    for position in 0..game.size() {
        for number in 0..game.degree(position) {
            if let Some(moves) = heads.get_mut(game.target(position, number)) {
                *moves = moves.wrapping_add(1);
            }
        }
    }
}

/// From how many moves end at each position to where its list begins.
fn begin(heads: &mut [u32]) {
    let mut sum = 0u32;
    for head in heads.iter_mut() {
        let moves = *head;
        *head = sum;
        sum = sum.wrapping_add(moves);
    }
}

/// Writes each position into the lists of those that its moves end at.
fn fill<G: ParityGame>(game: &G, heads: &mut [u32], sources: &mut [u32]) {
    for position in 0..game.size() {
        for number in 0..game.degree(position) {
            if let Some(head) = heads.get_mut(game.target(position, number)) {
                put(sources, *head as usize, position as u32);
                *head = head.wrapping_add(1);
            }
        }
    }
}

/// Where to look first for what a set draws in: for each position those from where moves lead to
/// it, and a queue of positions to look at. It only hints; position 0 stands for what does not fit,
/// and nothing that is promised rests on it.
#[derive(Drop)]
pub(crate) struct Trail<'a> {
    heads: &'a [u32],
    sources: &'a [u32],
    queue: &'a mut [u32],
    end: usize,
}

impl<'a> Trail<'a> {
    /// Notes the moves of the game, in memory of two numbers for each position and one for each
    /// move. The list of a position ends at its head, and begins at the head before.
    pub(crate) fn new<G: ParityGame>(game: &G, memory: &'a mut [u32]) -> Self
        requires { 2 * (G.ParityGame.board game.now).size ≤ length memory.old }
    {
        let size = game.size();
        let (queue, rest) = memory.split_at_mut(size);
        let (heads, sources) = rest.split_at_mut(size);
        heads.fill(0);
        count(game, heads);
        begin(heads);
        fill(game, heads, sources);
        Trail {
            heads,
            sources,
            queue,
            end: 0,
        }
    }

    /// The places at which the positions are noted from where moves lead to the position: those
    /// that fitted, and one place past them all if some did not. A list that is cut is followed as
    /// far as it goes, and then at position 0: left out whole, some games took time by their square.
    pub(crate) fn list(&self, position: usize) -> Range<usize> {
        let start = match position {
            0 => 0,
            _ => number_at(self.heads, position - 1) as usize,
        };
        let end = number_at(self.heads, position) as usize;
        let fitted = self.sources.len();
        if start < end {
            start.min(fitted)..end.min(fitted + 1)
        } else {
            0..0
        }
    }

    /// The position noted at a place, and 0 past them all.
    pub(crate) fn source(&self, place: usize) -> u32 {
        number_at(self.sources, place)
    }

    /// Empties the queue.
    pub(crate) fn clear(&mut self) {
        self.end = 0;
    }

    /// Appends a position to the queue, if there is room.
    pub(crate) fn push(&mut self, position: u32) {
        if let Some(place) = self.queue.get_mut(self.end) {
            *place = position;
            self.end += 1;
        }
    }

    /// The position at a place of the queue, if the queue reaches so far.
    pub(crate) fn queued(&self, place: usize) -> Option<u32> {
        self.queue.get(..self.end)?.get(place).copied()
    }
}
