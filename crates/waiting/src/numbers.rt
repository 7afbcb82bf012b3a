ghost use Rattle.std.specs.Prelude.{◌≡◌, ◌+◌, ◌*◌, ◌≤◌};
ghost use Rattle.game.specs.Waiting.{arrive, toll, tint};

use super::names::Position;

/// The level after arriving at a colour: an odd one raises it, a high
/// enough even one clears it.
pub fn arrive(level: u8, colour: u8) -> u8
    ensures { result ≡ arrive level colour }
{
    let half = colour / 2;
    if level > half {
        level
    } else if colour % 2 == 1 {
        half + 1
    } else {
        0
    }
}

/// The stage at which a move of that cost arrives: 1 where there is something to pay.
pub fn toll(cost: u32) -> u8
    ensures { result ≡ toll cost }
{
    u8::from(cost > 0)
}

/// The colour of a position that does not show its vertex's colour: a toll, or a level at which nothing waits.
pub(crate) fn signal(height: u8, level: u8, stage: u8) -> u8
    requires low { height ≤ 28 }
    requires unshown { stage ≡ 0 → level ≡ 0 }
    ensures { result ≡ tint height 0 level stage }
{
    if stage == 0 {
        height + 2
    } else if level == 0 {
        0
    } else {
        height + 1
    }
}

/// The number of a position among those of `levels` levels for each vertex.
pub(crate) fn place(levels: usize, position: Position<usize>) -> usize
    requires low { levels ≤ 16 }
    requires few { position.below ≤ 4096 }
    ensures { result ≡ (position.below * levels + position.level) * 2 + position.stage }
{
    (position.below * levels + position.level as usize) * 2 + position.stage as usize
}
