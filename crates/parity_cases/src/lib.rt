#![tactic(auto)]

use chart::refusal::Refusal;
use parity::rows::Rows;
use parity::solver::solve;

/// What a call leaves in its two tables of four numbers, which begin as sevens.
#[derive(Clone, Copy)]
pub struct Tables {
    pub winners: [u32; 4],
    pub moves: [u32; 4],
}

/// Solves a game of at most four positions.
pub fn solved(
    owners: &[u8],
    colours: &[u8],
    starts: &[u32],
    targets: &[u32],
) -> Result<Tables, Refusal> {
    let game = Rows {
        owners,
        colours,
        starts,
        targets,
    };
    let mut tables = Tables {
        winners: [7; 4],
        moves: [7; 4],
    };
    let mut memory = [7; 32];
    solve(&game, &mut tables.winners, &mut tables.moves, &mut memory)?;
    Ok(tables)
}

/// Solves the game of one position and a move to itself, in tables of the given lengths.
pub fn refusal(winners: usize, moves: usize, memory: usize) -> Result<(), Refusal> {
    let game = Rows {
        owners: &[0],
        colours: &[0],
        starts: &[0, 1],
        targets: &[0],
    };
    let mut first = [7; 4];
    let mut second = [7; 4];
    let mut third = [7; 32];
    match (
        first.get_mut(..winners),
        second.get_mut(..moves),
        third.get_mut(..memory),
    ) {
        (Some(winners), Some(moves), Some(memory)) => solve(&game, winners, moves, memory),
        _ => Ok(()),
    }
}

#[cfg(test)]
mod tests {
    use super::*;
    use std::test::Fail;

    #[test]
    fn no_positions(rt: HostRuntime) -> Result<(), Fail> {
        let tables = solved(&[], &[], &[], &[])?;
        assert_eq!(rt; tables.winners, [7, 7, 7, 7]);
        assert_eq!(rt; tables.moves, [7, 7, 7, 7]);
        Ok(())
    }

    #[test]
    fn one_position(rt: HostRuntime) -> Result<(), Fail> {
        let even = solved(&[1], &[4], &[0, 1], &[0])?;
        assert_eq!(rt; even.winners, [0, 7, 7, 7]);
        let odd = solved(&[0], &[3], &[0, 1], &[0])?;
        assert_eq!(rt; odd.winners, [1, 7, 7, 7]);
        Ok(())
    }

    #[test]
    fn self_moves(rt: HostRuntime) -> Result<(), Fail> {
        let tables = solved(
            &[0, 1, 0, 1],
            &[1, 2, 2, 1],
            &[0, 2, 4, 6, 8],
            &[0, 1, 1, 2, 2, 3, 3, 0],
        )?;
        assert_eq!(rt; tables.winners, [0, 0, 0, 1]);
        assert_eq!(rt; tables.moves[0], 1);
        assert_eq!(rt; tables.moves[2], 0);
        assert_eq!(rt; tables.moves[3], 0);
        Ok(())
    }

    #[test]
    fn one_owner(rt: HostRuntime) -> Result<(), Fail> {
        let zero = solved(&[0, 0, 0], &[1, 2, 3], &[0, 2, 4, 5], &[1, 2, 0, 2, 2])?;
        assert_eq!(rt; zero.winners, [0, 0, 1, 7]);
        let one = solved(&[1, 1, 1], &[1, 2, 3], &[0, 2, 4, 5], &[1, 2, 0, 2, 2])?;
        assert_eq!(rt; one.winners, [1, 1, 1, 7]);
        Ok(())
    }

    /// The contract leaves the choice of moves free; where the lists do not fit in the memory it
    /// stays as it has been.
    #[test]
    fn more_moves_than_are_noted(rt: HostRuntime) -> Result<(), Fail> {
        let tables = solved(
            &[0, 0, 0, 0],
            &[1, 1, 0, 2],
            &[0, 3, 9, 15, 21],
            &[
                2, 3, 1, 0, 1, 2, 2, 0, 1, 1, 3, 0, 1, 3, 3, 3, 3, 2, 0, 3, 1,
            ],
        )?;
        assert_eq!(rt; tables.winners, [0, 0, 0, 0]);
        assert_eq!(rt; tables.moves, [1, 0, 1, 0]);
        Ok(())
    }

    #[test]
    fn one_colour(rt: HostRuntime) -> Result<(), Fail> {
        let even = solved(&[0, 1, 0], &[0, 0, 0], &[0, 1, 2, 3], &[1, 2, 0])?;
        assert_eq!(rt; even.winners, [0, 0, 0, 7]);
        let odd = solved(&[0, 1, 0], &[5, 5, 5], &[0, 1, 2, 3], &[1, 2, 0])?;
        assert_eq!(rt; odd.winners, [1, 1, 1, 7]);
        Ok(())
    }

    #[test]
    fn refusals(rt: HostRuntime) {
        assert_eq!(rt;
            solved(&[0, 0, 0], &[0, 0, 0], &[0, 1, 1, 1], &[0]).err(),
            Some(Refusal::DeadEnd(1))
        );
        assert_eq!(rt; refusal(0, 1, 8), Err(Refusal::ShortTable));
        assert_eq!(rt; refusal(1, 0, 8), Err(Refusal::ShortTable));
        assert_eq!(rt; refusal(1, 1, 7), Err(Refusal::ShortMemory));
        assert_eq!(rt; refusal(1, 1, 8), Ok(()));
    }
}
