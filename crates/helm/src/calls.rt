ghost use Rattle.std.specs.Prelude.{◌≡◌, ℕ, ◌<◌, ◌≤◌, length};
ghost use Rattle.game.specs.Reading.{owner_of, colour_of};
ghost use Rattle.chart.specs.Players.{numbered};
ghost use Rattle.chart.specs.Refusals.{number_of, place_of};
ghost use Rattle.helm.specs.Tally.{on_first};
ghost use Rattle.helm.specs.States.{ours, harbours, state_of, state_at, finished, begun, steered, heard, replied};
ghost use Rattle.helm.specs.Calls.{half as half_of, waits_passed, sailed, moving, tally_left, tally_moved, begin_outcome, begin_tally, steer_reply, steer_tally, hear_reply, hear_tally};

use super::tally::{highest, open, pass};
use super::turns::{HarbourTurn, OurTurn, Record, Slip, Standing, Turn};
use chart::{Chart, Move, Player, Refusal};

/// The most moves that a voyage makes.
const MOST_MOVES: u32 = 1_000_000;

/// The mark of a vertex from which the plan holds.
const MARKED: u8 = 1;

/// The colour of a vertex, 0 where the chart lacks it.
#[tactic(auto, using(crate::proofs::Looks::colour_read))]
fn colour_at<C: Chart>(chart: &C, vertex: usize) -> u8
    ensures { result ≡ colour_of (C.Chart.meaning chart.now) vertex }
{
    chart.colour(vertex).unwrap_or(0)
}

/// How many entries of a tally the chart uses: one for each odd colour.
fn half<C: Chart>(chart: &C) -> usize
    ensures is { result ≡ half_of (C.Chart.meaning chart.now) }
    ensures low { result ≤ 127 }
{
    chart.height() as usize / 2
}

/// Who decides at a vertex, the controller where the chart lacks it.
#[tactic(auto, using(crate::proofs::Looks::owner_read))]
fn owner_at<C: Chart>(chart: &C, vertex: usize) -> Player
    ensures { numbered result ≡ owner_of (C.Chart.meaning chart.now) vertex }
{
    chart.owner(vertex).unwrap_or(Player::Controller)
}

/// The turn of whoever owns the vertex reached, with the record so far.
fn turn_at<C: Chart>(chart: &C, vertex: usize, so_far: Record) -> Turn
    ensures { state_of result ≡ state_at (owner_of (C.Chart.meaning chart.now) vertex) vertex so_far }
{
    let at = Standing { vertex, so_far };
    match owner_at(chart, vertex) {
        Player::Controller => Turn::Ours(OurTurn { at }),
        Player::Harbour => Turn::Harbours(HarbourTurn { at }),
    }
}

/// Makes a move: the tally's used entries wait through it and arrive, and the
/// turn is the owner's of the vertex arrived at.
// This and what calls it are compiled into steer and hear: as calls of their own they hand each turn
// over through memory, and a move took about twice as long.
#[inline(always)]
fn sail<C: Chart>(chart: &C, tally: &mut [u64], step: Move, so_far: Record) -> Turn
    requires room { half_of (C.Chart.meaning chart.now) ≤ length tally.old }
    requires not_spent { so_far.moves < 1000000 }
    ensures answer { state_of result ≡ sailed (C.Chart.meaning chart.now) step.target step.cost so_far.moves so_far.worst tally.old }
    ensures after { tally.new ≡ on_first (half_of (C.Chart.meaning chart.now)) (waits_passed step.cost (colour_of (C.Chart.meaning chart.now) step.target)) tally.old }
{
    let Move { target, cost } = step;
    let waits = &mut tally[..half(chart)];
    let longest = pass(waits, cost, colour_at(chart, target));
    let record = Record {
        moves: so_far.moves + 1,
        worst: so_far.worst.max(longest),
        waiting: highest(waits),
    };
    turn_at(chart, target, record)
}

/// Makes the move of that number from where the voyage stands, and gives the next turn.
/// Refuses a move that the vertex lacks, by the refusal given, and the 1,000,001st.
#[inline(always)]
fn move_on<C: Chart>(
    at: Standing,
    chart: &C,
    number: usize,
    tally: &mut [u64],
    lacking: Refusal,
) -> Result<Turn, Refusal>
    requires room { half_of (C.Chart.meaning chart.now) ≤ length tally.old }
    requires no_place { place_of lacking ≡ 0 }
    ensures answer { (turn : ℕ) → replied (state_at turn at.vertex at.so_far) result ≡ moving (C.Chart.meaning chart.now) (state_at turn at.vertex at.so_far) number tally.old (number_of lacking) }
    ensures after { (turn : ℕ) → tally.new ≡ tally_left (replied (state_at turn at.vertex at.so_far) result) (tally_moved (C.Chart.meaning chart.now) (state_at turn at.vertex at.so_far) number tally.old) tally.old }
{
    let step = chart.move_at(at.vertex, number).ok_or(lacking)?;
    if at.so_far.moves >= MOST_MOVES {
        return Err(Refusal::TooManySteps);
    }
    Ok(sail(chart, tally, step, at.so_far))
}

/// Begins a voyage at a marked vertex: clears the tally's used entries, opens
/// the start's request, and gives the turn of whoever owns the start and the slip.
pub fn begin<C: Chart>(
    chart: &C,
    marks: &[u8],
    tally: &mut [u64],
    start: usize,
) -> Result<(Turn, Slip), Refusal>
    ensures answer { begun result ≡ begin_outcome (C.Chart.meaning chart.now) marks.now tally.old start }
    ensures after { tally.new ≡ begin_tally (C.Chart.meaning chart.now) marks.now tally.old start }
{
    let used = half(chart);
    if marks.len() < chart.size() || tally.len() < used {
        return Err(Refusal::ShortTable);
    }
    if start >= chart.size() || marks[start] != MARKED {
        return Err(Refusal::UnmarkedStart);
    }
    let waits = &mut tally[..used];
    open(waits, colour_at(chart, start));
    let record = Record {
        moves: 0,
        worst: 0,
        waiting: highest(waits),
    };
    Ok((turn_at(chart, start, record), Slip { seal: () }))
}

/// Makes the plan's move and gives the next turn. A refusal gives the turn back.
pub fn steer<C: Chart>(
    turn: OurTurn,
    chart: &C,
    plan: &[u16],
    tally: &mut [u64],
) -> Result<Turn, (OurTurn, Refusal)>
    ensures answer { steered result ≡ steer_reply (C.Chart.meaning chart.now) plan.now tally.old (ours turn) }
    ensures after { tally.new ≡ steer_tally (C.Chart.meaning chart.now) plan.now tally.old (ours turn) }
{
    let at = turn.at;
    if at.vertex >= chart.size() {
        return Err((turn, Refusal::AbsentVertex));
    }
    if plan.len() < chart.size() || tally.len() < half(chart) {
        return Err((turn, Refusal::ShortTable));
    }
    move_on(
        at,
        chart,
        plan[at.vertex] as usize,
        tally,
        Refusal::WrongPlanEntry(0),
    )
    .map_err(|refusal| (turn, refusal))
}

/// Makes the harbour's move and gives the next turn. A refusal gives the turn back.
pub fn hear<C: Chart>(
    turn: HarbourTurn,
    chart: &C,
    number: usize,
    tally: &mut [u64],
) -> Result<Turn, (HarbourTurn, Refusal)>
    ensures answer { heard result ≡ hear_reply (C.Chart.meaning chart.now) number tally.old (harbours turn) }
    ensures after { tally.new ≡ hear_tally (C.Chart.meaning chart.now) number tally.old (harbours turn) }
{
    let at = turn.at;
    if at.vertex >= chart.size() {
        return Err((turn, Refusal::AbsentVertex));
    }
    if tally.len() < half(chart) {
        return Err((turn, Refusal::ShortTable));
    }
    move_on(at, chart, number, tally, Refusal::AbsentMove).map_err(|refusal| (turn, refusal))
}

impl Turn {
    /// Where the voyage stands, at either turn.
    fn at(&self) -> Standing
        ensures { state_of self.now ≡ state_at (state_of self.now).turn result.vertex result.so_far }
    {
        match self {
            Turn::Ours(OurTurn { at }) | Turn::Harbours(HarbourTurn { at }) => *at,
        }
    }

    /// The vertex that the voyage has reached.
    pub fn vertex(&self) -> usize
        ensures { result ≡ (state_of self.now).vertex }
    {
        self.at().vertex
    }
}

/// Ends a voyage at either turn, and takes its slip back.
pub fn finish(turn: Turn, slip: Slip) -> Record
    ensures { result ≡ finished (state_of turn) }
{
    let Slip { seal: _ } = slip;
    turn.at().so_far
}
