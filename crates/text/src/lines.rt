ghost use Rattle.std.specs.Prelude.{◌≡◌, ℕ, List, length, MatchOption, false};
ghost use Rattle.std.specs.Char.{is_ascii_digit};
ghost use Rattle.text.specs.Lines.{end_of};
ghost use Rattle.text.specs.Tokens.{Spells};

use super::tokens::{after, field};

const COMMA: u8 = b',';

const LINE_END: u8 = b'\n';

/// A line taken apart: its numbers, and what stands behind it.
#[derive(Drop)]
pub(crate) struct TakenLine<'a, const N: usize> {
    pub(crate) numbers: [u32; N],
    pub(crate) rest: &'a [u8],
}

/// The N numbers on a line that begins with the word, and what stands behind the line.
pub(crate) fn numbers_line<'a, const N: usize>(
    bytes: &'a [u8],
    word: &[u8],
) -> Option<TakenLine<'a, N>>
    ensures { MatchOption result ((numbers rest : List ℕ) → length numbers ≡ N → Spells word.now bytes.now numbers rest → ⊥) (λ x. Spells word.now bytes.now x.numbers x.rest.now) }
{
    let mut rest = after(bytes, word)?;
    let mut numbers = [0; N];
    for (place, number) in numbers.iter_mut().enumerate() {
        (*number, rest) = field(rest, end_behind(N - 1 - place))?;
    }
    Some(TakenLine { numbers, rest })
}

/// The byte behind a number that so many more follow on its line.
pub(crate) fn end_behind(more: usize) -> u8
    ensures is { (numbers : List ℕ) → length numbers ≡ more → result ≡ end_of numbers }
    ensures plain { is_ascii_digit result ≡ false }
{
    match more {
        0 => LINE_END,
        _ => COMMA,
    }
}
