ghost use Rattle.std.specs.Prelude.{◌≡◌, ◌<◌, ◌-◌, MatchResult};
ghost use Rattle.chart.specs.Players.{numbered};
ghost use Rattle.chart.specs.declared.refusal.Refusal.TheVariants.{UnknownOwner};

use super::refusal::Refusal;

/// Who decides at a vertex: the crew's controller, player 0, or the harbour, player 1.
#[derive(Clone, Copy, PartialEq, Eq, Debug)]
pub enum Player {
    Controller,
    Harbour,
}

impl Player {
    /// Who plays against this one.
    pub fn opponent(self) -> Player
        ensures { numbered result ≡ 1 - numbered self }
    {
        match self {
            Player::Controller => Player::Harbour,
            Player::Harbour => Player::Controller,
        }
    }
}

/// The player of a number; there is none above 1.
impl TryFrom<u32> for Player {
    type Error = Refusal;

    ghost try_from_gives = { λ n r. MatchResult r (λ p. numbered p ≡ n) (λ e. (1 < n) × (e ≡ UnknownOwner)) };

    fn try_from(number: u32) -> Result<Player, Refusal> {
        match number {
            0 => Ok(Player::Controller),
            1 => Ok(Player::Harbour),
            _ => Err(Refusal::UnknownOwner),
        }
    }
}

/// The number by which texts and rules speak of the player.
impl From<Player> for u32 {
    ghost from_gives = { λ p n. n ≡ numbered p };

    fn from(player: Player) -> u32 {
        match player {
            Player::Controller => 0,
            Player::Harbour => 1,
        }
    }
}

/// A move: the vertex that it arrives at, and the metres of tow that it costs.
#[derive(Clone, Copy, PartialEq, Eq, Debug)]
pub struct Move {
    pub target: usize,
    pub cost: u32,
}
