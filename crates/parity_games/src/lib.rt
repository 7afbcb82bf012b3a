#![tactic(auto)]

ghost use Rattle.std.specs.Prelude.{◌%◌, ◌*◌, ◌+◌, ◌<◌, ◌≤◌, ◌≡◌, ◌↔◌, IfSome, IsFalse, IsSome, set, take};

use parity::rows::Rows;

/// The moves of each position of a generated game. Some may end at the same position.
pub const MOVES: usize = 4;

/// A kind of game, of any size.
#[derive(Clone, Copy, PartialEq, Eq, Debug)]
pub enum Family {
    /// Sixteen lanes side by side, each position with moves ahead and aside.
    Lanes,
    /// One long chain, with moves ahead and back and one jump back.
    Chain,
    /// Two rails with rungs between them.
    Ladder,
    /// Colours that rise along the way, with moves back to half of it.
    Steps,
    /// Any moves, owners and colours.
    Random,
    /// One way through every position, and no choice.
    Way,
    /// Every second position a toll of the second highest colour.
    Tolls,
    /// Chains of each colour over chains of the lower ones, so that each step calls for them all.
    Nest,
}

/// The families that have a game of any size and of any number of colours: all but the nests.
pub const FAMILIES: [Family; 7] = [
    Family::Lanes,
    Family::Chain,
    Family::Ladder,
    Family::Steps,
    Family::Random,
    Family::Way,
    Family::Tolls,
];

/// A number mixed from three others.
pub fn mixed(seed: u64, first: u64, second: u64) -> u64 {
    let mut x = seed
        .wrapping_mul(0x9e37_79b9_7f4a_7c15)
        .wrapping_add(first.wrapping_mul(0xbf58_476d_1ce4_e5b9))
        .wrapping_add(second.wrapping_mul(0x94d0_49bb_1331_11eb));
    x ^= x >> 30;
    x = x.wrapping_mul(0xbf58_476d_1ce4_e5b9);
    x ^= x >> 27;
    x = x.wrapping_mul(0x94d0_49bb_1331_11eb);
    x ^ (x >> 31)
}

/// The rest of a division, and 0 where there is nothing to divide by.
pub fn rest(number: u64, by: u64) -> u64
    ensures low { result ≤ by }
    ensures below { 0 < by → result < by }
    ensures rest { 0 < by → result ≡ number % by }
{
    number.checked_rem(by).unwrap_or(0)
}

/// Writes into a table, unless the place lies past its end.
pub fn put<T: Copy>(table: &mut [T], place: usize, value: T)
    ensures { table.new ≡ set table.old place value }
{
    // By index: of what is written through `get_mut` a clause knows no more than the length.
    if place < table.len() {
        table[place] = value;
    }
}

/// The most positions that there is room for.
pub const MOST: usize = 4096;

/// Room for the tables of any game of at most 4,096 positions.
#[derive(Drop)]
pub struct Room {
    pub owners: [u8; MOST],
    pub colours: [u8; MOST],
    pub starts: [u32; MOST + 1],
    pub targets: [u32; MOVES * MOST],
}

impl Room {
    /// Room in which nothing is laid.
    pub const EMPTY: Room = Room {
        owners: [0; MOST],
        colours: [0; MOST],
        starts: [0; MOST + 1],
        targets: [0; MOVES * MOST],
    };

    /// The tables of a game of the size, unless it has more positions than there is room for.
    pub fn tables(&mut self, size: u64) -> Option<GameTables<'_>>
        ensures room { IsSome result ↔ (size ≤ 4096) }
        ensures owners { IfSome result (λ t. t.owners.now ≡ take size self.old.owners) }
        ensures colours { IfSome result (λ t. t.colours.now ≡ take size self.old.colours) }
        ensures starts { IfSome result (λ t. t.starts.now ≡ take (size + 1) self.old.starts) }
        ensures targets { IfSome result (λ t. t.targets.now ≡ take (4 * size) self.old.targets) }
    {
        let size = size as usize;
        let Room {
            owners,
            colours,
            starts,
            targets,
        } = self;
        Some(GameTables {
            owners: owners.get_mut(..size)?,
            colours: colours.get_mut(..size)?,
            starts: starts.get_mut(..=size)?,
            targets: targets.get_mut(..MOVES * size)?,
        })
    }
}

/// The tables of a game, lent to be laid: a number for each position in the first two, one more
/// among the starts, and four for each among the targets.
#[derive(Drop)]
pub struct GameTables<'a> {
    pub owners: &'a mut [u8],
    pub colours: &'a mut [u8],
    pub starts: &'a mut [u32],
    pub targets: &'a mut [u32],
}

/// The colours of a generated game are below this number.
pub const COLOURS: u64 = 11;

/// A family, with the size and the seed of one game of it. Games may also have few colours.
#[derive(Clone, Copy)]
pub struct Plan {
    pub family: Family,
    pub size: u64,
    pub colours: u8,
    pub seed: u64,
    pub shuffled: bool,
}

/// In a nest, how many positions each chain has: two for each of its steps.
fn chain_length(size: u64) -> u64 {
    2 * (size / 20)
}

/// In a nest, the colour of the chain that the position is on, and 0 past the last chain.
fn chain_colour(size: u64, position: u64) -> u8 {
    match position.checked_div(chain_length(size)) {
        Some(level) if level < 10 => (level + 1) as u8,
        _ => 0,
    }
}

impl Plan {
    /// A game of all colours with its positions in order; its seed is 1.
    pub fn new(family: Family, size: u64) -> Plan
        ensures family { result.family ≡ family }
        ensures size { result.size ≡ size }
        ensures colours { result.colours ≡ 11 }
        ensures seed { result.seed ≡ 1 }
        ensures shuffled { IsFalse result.shuffled }
    {
        Plan {
            family,
            size,
            colours: COLOURS as u8,
            seed: 1,
            shuffled: false,
        }
    }

    /// Who moves at the position.
    fn owner(&self, position: u64) -> u8 {
        match self.family {
            Family::Lanes | Family::Chain | Family::Random => (mixed(self.seed, position, 101)
                % 2) as u8,
            Family::Ladder | Family::Way => (position % 2) as u8,
            Family::Steps => (position / 3 % 2) as u8,
            Family::Tolls => (position / 2 % 2) as u8,
            Family::Nest => {
                let player = chain_colour(self.size, position) % 2;
                if position % 2 == 0 {
                    1 - player
                } else {
                    player
                }
            }
        }
    }

    /// The colour of the position, before it is held below the game's number of colours.
    fn shade(&self, position: u64) -> u64 {
        match self.family {
            Family::Lanes | Family::Chain | Family::Random => mixed(self.seed, position, 102)
                % COLOURS,
            Family::Ladder => position / 2 % COLOURS,
            Family::Steps => rest(
                position.wrapping_mul(COLOURS),
                self.size.wrapping_mul(COLOURS),
            ) / (self.size / COLOURS + 1),
            Family::Way => if position.wrapping_add(1) == self.size {
                10
            } else {
                position % 10
            },
            Family::Tolls => if position % 2 == 1 {
                9
            } else {
                position / 2 % 9
            },
            Family::Nest => {
                u64::from(chain_colour(self.size, position)).saturating_sub(position % 2)
            }
        }
    }

    fn colour(&self, position: u64) -> u8 {
        let shade = self.shade(position);
        rest(shade, u64::from(self.colours)) as u8
    }

    /// Where a move of the position ends, before it is held below the size.
    fn end(&self, position: u64, number: u64) -> u64 {
        let size = self.size;
        let ahead = position.wrapping_add(1);
        match self.family {
            Family::Lanes => lane(position, number),
            Family::Chain => match number {
                0 => ahead,
                1 => position.wrapping_add(size).wrapping_sub(1),
                2 => position.wrapping_add(2),
                _ => rest(mixed(self.seed, position, 103), ahead),
            },
            Family::Ladder => match number {
                0 => position.wrapping_add(2),
                1 => position.wrapping_add(2) ^ 1,
                2 => position.wrapping_add(size).wrapping_sub(2),
                _ => position ^ 1,
            },
            Family::Steps => match number {
                0 => ahead,
                1 => position.saturating_sub(1),
                2 => position / 2,
                _ => position.wrapping_add(7),
            },
            Family::Random => mixed(self.seed, position, number.wrapping_add(200)),
            Family::Way => ahead,
            Family::Tolls => toll(position, number),
            Family::Nest => nested(size, position, number),
        }
    }

    /// The number by which the position goes: its own, or one shuffled among them. The size of a
    /// shuffled game is a power of two.
    fn label(&self, position: u64) -> usize {
        let number = if self.shuffled {
            position.wrapping_mul(0x9e37_79b1).wrapping_add(self.seed)
        } else {
            position
        };
        rest(number, self.size) as usize
    }

    /// Lays the game into the tables, and lends them as a game that can be solved.
    pub fn lay<'a>(&self, tables: GameTables<'a>) -> Rows<'a> {
        let GameTables {
            owners,
            colours,
            starts,
            targets,
        } = tables;
        for position in 0..self.size {
            let label = self.label(position);
            put(owners, label, self.owner(position));
            put(colours, label, self.colour(position));
            for number in 0..MOVES {
                let end = self.label(rest(self.end(position, number as u64), self.size));
                let place = label.wrapping_mul(MOVES).wrapping_add(number);
                put(targets, place, (end % 65536) as u32);
            }
        }
        let mut next = 0u32;
        for start in starts.iter_mut() {
            *start = next;
            next = next.wrapping_add(MOVES as u32);
        }
        Rows {
            owners,
            colours,
            starts,
            targets,
        }
    }
}

/// In lanes, where a move ends: ahead in one of three lanes, or aside.
fn lane(position: u64, number: u64) -> u64 {
    let row = position / 16;
    let next = row.wrapping_add(1);
    let column = position % 16;
    match number {
        0 => next.wrapping_mul(16) + column,
        1 => next.wrapping_mul(16) + (column + 1) % 16,
        2 => next.wrapping_mul(16) + (column + 15) % 16,
        _ => row * 16 + (column + 1) % 16,
    }
}

/// Among tolls, where a move ends: a toll leads to its position, and a position to three tolls.
fn toll(position: u64, number: u64) -> u64 {
    if position % 2 == 1 {
        return position - 1;
    }
    let vertex = position / 2;
    let end = match number {
        0 => vertex + 1,
        1 => vertex + 3,
        _ => vertex.wrapping_mul(7),
    };
    end.wrapping_mul(2).wrapping_add(1)
}

/// In a nest, where a move ends. An even position of a chain shows its colour and leads to the step
/// before it. An odd one leads to itself, to the even one beside it, or to the last step of the
/// next chain, so that the chains below are won anew each time that a chain above is.
fn nested(size: u64, position: u64, number: u64) -> u64 {
    let length = chain_length(size);
    let colour = chain_colour(size, position);
    if length == 0 || colour == 0 {
        return position;
    }
    if position % 2 == 1 && number > 1 && colour < 10 {
        return u64::from(colour)
            .wrapping_mul(length)
            .wrapping_add(length)
            .wrapping_sub(2);
    }
    if position % length < 2 || (position % 2 == 1 && number == 0) {
        return position;
    }
    position - 1
}
