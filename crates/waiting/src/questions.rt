ghost use Rattle.std.specs.Prelude.{◌≡◌, length};
ghost use Rattle.std.specs.Option.{option_map};
ghost use Rattle.chart.specs.Arena.{size, vertex_at, move_at};
ghost use Rattle.chart.specs.Players.{numbered};
ghost use Rattle.game.specs.Waiting.{levels, positions, may_be_laid, waiting, lifted};
ghost use Rattle.waiting.specs.Positions.{located, number_of, first_of, naming_over, finding_over};

use super::limits::{HIGHEST_BELOW, MOST_POSITIONS};
use super::names::Position;
use super::numbers::{arrive, place, signal, toll};
use chart::{Chart, Move, Player};

/// How many levels there are at each vertex.
pub fn levels<C: Chart>(chart: &C) -> usize
    ensures { result ≡ levels (C.Chart.meaning chart.now) }
{
    (chart.height() / 2) as usize + 1
}

/// How many positions the waiting chart over this one has, where it may be laid.
pub fn positions<C: Chart>(chart: &C) -> usize
    ensures { result ≡ positions (C.Chart.meaning chart.now) }
{
    chart.size() * levels(chart) * 2
}

/// Whether the waiting chart over this one keeps within the ranges of a chart.
pub fn may_be_laid<C: Chart>(chart: &C) -> bool
    ensures { result ≡ may_be_laid (C.Chart.meaning chart.now) }
{
    positions(chart) <= MOST_POSITIONS && chart.height() <= HIGHEST_BELOW
}

/// The number of vertices of the waiting chart: 0 where it may not be laid.
pub fn waiting_size<C: Chart>(chart: &C) -> usize
    ensures { result ≡ size (waiting (C.Chart.meaning chart.now)) }
{
    if may_be_laid(chart) {
        positions(chart)
    } else {
        0
    }
}

/// The height of the waiting chart: 0 where it may not be laid.
pub fn waiting_height<C: Chart>(chart: &C) -> u8
    ensures { result ≡ (waiting (C.Chart.meaning chart.now)).height }
{
    if may_be_laid(chart) {
        chart.height() + 2
    } else {
        0
    }
}

/// The vertex, the level and the stage of the position of a number, if there is one.
#[tactic(auto, using(crate::specs::Spots::located_there, crate::specs::Spots::located_past))]
pub fn locate<C: Chart>(chart: &C, number: usize) -> Option<Position<usize>>
    ensures { result ≡ located (C.Chart.meaning chart.now) number }
{
    if number >= waiting_size(chart) {
        return None;
    }
    let levels = levels(chart);
    let pair = number / 2;
    Some(Position {
        below: pair / levels,
        level: (pair % levels) as u8,
        stage: (number % 2) as u8,
    })
}

/// The number of the position of a vertex, a level and a stage, if there is one.
pub fn position_number<C: Chart>(chart: &C, position: Position<usize>) -> Option<usize>
    ensures { result ≡ number_of (C.Chart.meaning chart.now) position }
{
    let levels = levels(chart);
    let within = position.below < chart.size()
        && (position.level as usize) < levels
        && position.stage < 2;
    (may_be_laid(chart) && within).then(|| place(levels, position))
}

/// The position at which a voyage from the vertex begins, if there is one.
#[tactic(auto, using(crate::proofs::Answered::first_unlaid, crate::proofs::Answered::colour_known))]
pub fn first_position<C: Chart>(chart: &C, vertex: usize) -> Option<usize>
    ensures { result ≡ first_of (C.Chart.meaning chart.now) vertex }
{
    let colour = chart.colour(vertex)?;
    if !may_be_laid(chart) {
        return None;
    }
    let first = Position {
        below: vertex,
        level: arrive(0, colour),
        stage: 0,
    };
    Some(place(levels(chart), first))
}

/// Who decides at the position: who decides at its vertex.
#[tactic(auto, using(crate::proofs::Answered::past, crate::proofs::Answered::owner_there))]
pub fn position_owner<C: Chart>(chart: &C, number: usize) -> Option<Player>
    ensures { option_map numbered result ≡ option_map (λ v. v.owner) (vertex_at (waiting (C.Chart.meaning chart.now)) number) }
{
    let position = locate(chart, number)?;
    chart.owner(position.below)
}

/// The colour of the position: its vertex's where something waits and nothing is paid, else one
/// that the height gives.
#[tactic(auto, using(crate::proofs::Answered::past, crate::proofs::Answered::colour_given))]
pub fn position_colour<C: Chart>(chart: &C, number: usize) -> Option<u8>
    ensures { result ≡ option_map (λ v. v.colour) (vertex_at (waiting (C.Chart.meaning chart.now)) number) }
{
    let position = locate(chart, number)?;
    if position.stage == 0 && position.level > 0 {
        chart.colour(position.below)
    } else {
        Some(signal(chart.height(), position.level, position.stage))
    }
}

/// The number of moves that leave the position: those of its vertex, or the one of a toll.
#[tactic(auto, using(crate::proofs::Answered::past, crate::proofs::Answered::degree_on, crate::proofs::Answered::degree_off))]
pub fn position_degree<C: Chart>(chart: &C, number: usize) -> Option<usize>
    ensures { result ≡ option_map (λ v. length v.moves) (vertex_at (waiting (C.Chart.meaning chart.now)) number) }
{
    let position = locate(chart, number)?;
    if position.stage == 0 {
        chart.degree(position.below)
    } else {
        Some(1)
    }
}

/// What a move below becomes at the level of a position.
#[tactic(auto, using(crate::proofs::Answered::colour_known, crate::proofs::Answered::lifted_is))]
fn lifted_move<C: Chart>(chart: &C, position: Position<usize>, index: usize) -> Option<Move>
    ensures { result ≡ option_map (lifted (C.Chart.meaning chart.now) position.level) (move_at (C.Chart.meaning chart.now) position.below index) }
{
    let step = chart.move_at(position.below, index)?;
    let colour = chart.colour(step.target)?;
    let arrived = Position {
        below: step.target,
        level: arrive(position.level, colour),
        stage: toll(step.cost),
    };
    Some(Move {
        target: place(levels(chart), arrived),
        cost: 0,
    })
}

/// A move of the position. It costs nothing: what costs below arrives at a toll.
#[tactic(auto, using(crate::proofs::Answered::past, crate::proofs::Answered::move_on, crate::proofs::Answered::move_paid))]
pub fn position_move<C: Chart>(chart: &C, number: usize, index: usize) -> Option<Move>
    ensures { result ≡ move_at (waiting (C.Chart.meaning chart.now)) number index }
{
    let position = locate(chart, number)?;
    if position.stage == 0 {
        return lifted_move(chart, position, index);
    }
    let paid = Position {
        stage: 0,
        ..position
    };
    (index == 0).then_some(Move {
        target: place(levels(chart), paid),
        cost: 0,
    })
}

/// The name of a position: the name of its vertex with its level and its stage.
pub fn position_name<C: Chart>(chart: &C, number: usize) -> Option<Position<C::Name>>
    ensures { result ≡ naming_over (C.Chart.meaning chart.now) (C.Chart.naming chart.now) number }
{
    let position = locate(chart, number)?;
    let below = chart.name(position.below)?;
    Some(position.renamed(below))
}

/// The number of the position of a name.
pub fn find_position<C: Chart>(chart: &C, name: Position<C::Name>) -> Option<usize>
    ensures { result ≡ finding_over (C.Chart.meaning chart.now) (C.Chart.finding chart.now) name }
{
    let vertex = chart.find(name.below)?;
    position_number(chart, name.renamed(vertex))
}
