ghost use Rattle.std.specs.Prelude.{◌≡◌, slice_index};
ghost use Rattle.parity.specs.Tables.{tabled};
ghost use Rattle.parity.specs.ClipsRanged.{clip_ranged};

use super::ParityGame;

/// The most positions that plain tables can hold.
const LIMIT: usize = 65536;

/// A game held in plain tables: an owner and a colour for each position, and its moves among the
/// targets, from its start up to the next position's.
#[derive(Drop)]
pub struct Rows<'a> {
    pub owners: &'a [u8],
    pub colours: &'a [u8],
    pub starts: &'a [u32],
    pub targets: &'a [u32],
}

/// What stands at a place of the table, and 0 past its end.
pub(crate) fn number_at(table: &[u32], place: usize) -> u32
    ensures { result ≡ slice_index table.now place }
{
    table.get(place).copied().unwrap_or(0)
}

impl<'a> ParityGame for Rows<'a> {
    ghost board = { λ t. tabled t.owners.now t.colours.now t.starts.now t.targets.now };

    ghost ranged = { λ t. clip_ranged _ };

    fn size(&self) -> usize {
        self.owners.len().min(LIMIT)
    }

    fn owner(&self, position: usize) -> u8 {
        match self.owners.get(position) {
            None | Some(0) => 0,
            Some(_) => 1,
        }
    }

    fn colour(&self, position: usize) -> u8 {
        self.colours.get(position).copied().unwrap_or(0)
    }

    fn degree(&self, position: usize) -> usize {
        let Some(start) = self.starts.get(position) else {
            return 0;
        };
        let end = number_at(self.starts, position + 1);
        end.saturating_sub(*start) as usize
    }

    fn target(&self, position: usize, number: usize) -> usize {
        if number >= self.targets.len() {
            return 0;
        }
        let start = number_at(self.starts, position) as usize;
        let end = number_at(self.targets, start + number) as usize;
        if end < self.size() { end } else { 0 }
    }
}
