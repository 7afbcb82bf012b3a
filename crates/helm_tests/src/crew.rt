// Crews that make whole voyages, and finish them whatever is refused.
use chart::{Chart, Refusal};
use helm::{Record, Turn, begin, finish, hear, steer};

/// Who makes calls: on which chart and by which plan.
#[derive(Drop)]
pub struct Crew<'a, C> {
    pub chart: &'a C,
    pub plan: &'a [u16],
}

impl<'a, C: Chart> Crew<'a, C> {
    /// One call: the plan's move at our turn, the number given at the harbour's. A refusal
    /// gives the turn back.
    fn try_call(
        &self,
        turn: Turn,
        number: usize,
        tally: &mut [u64],
    ) -> Result<Turn, (Turn, Refusal)> {
        match turn {
            Turn::Ours(ours) => steer(ours, self.chart, self.plan, tally).map_err(|(
                back,
                refusal,
            )| (Turn::Ours(back), refusal)),
            Turn::Harbours(theirs) => hear(theirs, self.chart, number, tally).map_err(|(
                back,
                refusal,
            )| (Turn::Harbours(back), refusal)),
        }
    }

    /// The next turn after a call, or the same again where it was refused.
    pub fn call(&self, turn: Turn, number: usize, tally: &mut [u64]) -> Turn {
        self.try_call(turn, number, tally)
            .unwrap_or_else(|(back, _)| back)
    }

    /// What a call refuses, and the turn after it.
    pub fn refused(&self, turn: Turn, number: usize, tally: &mut [u64]) -> (Option<Refusal>, Turn) {
        match self.try_call(turn, number, tally) {
            Ok(next) => (None, next),
            Err((back, refusal)) => (Some(refusal), back),
        }
    }
}

/// A record in short.
pub fn told(moves: u32, worst: u64, waiting: u8) -> Record {
    Record {
        moves,
        worst,
        waiting,
    }
}

/// A voyage of one call for each number; a number says the harbour's move, if it is its turn.
pub fn voyage<C: Chart>(
    chart: &C,
    plan: &[u16],
    start: usize,
    numbers: &[usize],
) -> Result<Record, Refusal> {
    let mut tally = [77; 4];
    let (mut turn, slip) = begin(chart, &[1; 8], &mut tally, start)?;
    let crew = Crew { chart, plan };
    for number in numbers {
        turn = crew.call(turn, *number, &mut tally);
    }
    Ok(finish(turn, slip))
}

/// What one call refuses, begun at vertex 0 of one chart and made on another, and the record after it.
pub fn refused_call<C: Chart, D: Chart>(
    chart: &C,
    other: &D,
    plan: &[u16],
    tally: &mut [u64],
    number: usize,
) -> Result<(Option<Refusal>, Record), Refusal> {
    let (turn, slip) = begin(chart, &[1; 8], &mut [0; 4], 0)?;
    let crew = Crew { chart: other, plan };
    let (refusal, turn) = crew.refused(turn, number, tally);
    Ok((refusal, finish(turn, slip)))
}
