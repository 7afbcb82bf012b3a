ghost use Rattle.std.specs.Prelude.{◌≡◌, ◌≤◌, map, length};
ghost use Rattle.helm.specs.Tally.{grown, met, arrived, cleared, longest as longest_of, highest_open};

/// A waiting entry after a move of that cost.
fn grow(entry: u64, cost: u32) -> u64
    ensures { result ≡ grown cost entry }
{
    if entry == 0 {
        0
    } else {
        entry.saturating_add(cost as u64)
    }
}

/// Adds the cost of a move to every entry that waits.
fn grow_all(waits: &mut [u64], cost: u32)
    ensures { waits.new ≡ map (grown cost) waits.old }
{
    for entry in waits.iter_mut() {
        *entry = grow(*entry, cost);
    }
}

/// The entry of the colour `own` after an arrival at `colour`.
fn meet(colour: u8, own: usize, entry: u64) -> u64
    ensures { result ≡ met colour own entry }
{
    let colour = usize::from(colour);
    if colour % 2 == 1 {
        if own == colour && entry == 0 {
            1
        } else {
            entry
        }
    } else if own < colour {
        0
    } else {
        entry
    }
}

/// Opens the request of an odd colour, or answers those below an even one.
fn arrive(waits: &mut [u64], colour: u8)
    ensures { waits.new ≡ arrived colour 1 waits.old }
{
    for (i, entry) in waits.iter_mut().enumerate() {
        *entry = meet(colour, 2 * i + 1, *entry);
    }
}

/// The greatest wait among the entries, 0 for none.
fn longest(waits: &[u64]) -> u64
    ensures { result ≡ longest_of waits.now }
{
    waits
        .iter()
        .fold(0, |most, entry| most.max(entry.saturating_sub(1)))
}

/// The highest colour that waits, 0 for none.
pub(crate) fn highest(waits: &[u64]) -> u8
    requires { length waits.now ≤ 127 }
    ensures { result ≡ highest_open 1 waits.now }
{
    let last = waits.iter().rposition(|entry| *entry > 0);
    last.map_or(0, |i| (2 * i + 1) as u8)
}

/// Clears the entries and opens the request of the first colour.
#[tactic(auto, using(crate::proofs::Entries::cleared_is))]
pub(crate) fn open(waits: &mut [u64], first: u8)
    ensures { waits.new ≡ arrived first 1 (cleared waits.old) }
{
    waits.fill(0);
    arrive(waits, first);
}

/// Makes a move of that cost to that colour; answers the greatest wait before it arrives.
pub(crate) fn pass(waits: &mut [u64], cost: u32, colour: u8) -> u64
    ensures after { waits.new ≡ arrived colour 1 (map (grown cost) waits.old) }
    ensures answer { result ≡ longest_of (map (grown cost) waits.old) }
{
    grow_all(waits, cost);
    let longest = longest(waits);
    arrive(waits, colour);
    longest
}
