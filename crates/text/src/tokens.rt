ghost use Rattle.std.specs.Prelude.{◌≡◌, ℕ, ◌+◌, ◌*◌, ◌<◌, ◌≤◌, true, false, List, ◌++◌, length, slice_index, IsTrue, MatchOption, ◌≢◌, ◌↔◌};
ghost use Rattle.std.specs.Char.{is_ascii_digit};
ghost use Rattle.std.specs.List.{prefix_len};
ghost use Rattle.std.specs.Str.{all_ascii_digits};
ghost use Rattle.text.specs.Tokens.{Numbered, Fielded, value_of};

const MOST_DIGITS: usize = 5;

/// What stands behind the word, if the bytes begin with it.
pub(crate) fn after<'a>(bytes: &'a [u8], word: &[u8]) -> Option<&'a [u8]>
    ensures { MatchOption result ((rest : List ℕ) → bytes.now ≢ word.now ++ rest) (λ x. bytes.now ≡ word.now ++ x.now) }
{
    bytes.strip_prefix(word)
}

/// How many digits stand at the front.
fn digits(bytes: &[u8]) -> usize
    ensures run { result ≡ prefix_len is_ascii_digit bytes.now }
    ensures within { result ≤ length bytes.now }
{
    bytes
        .iter()
        .take_while(|byte| byte.is_ascii_digit())
        .count()
}

/// The number that at most five digits write.
fn value(digits: &[u8]) -> u32
    requires all { all_ascii_digits digits.now ≡ true }
    requires few { length digits.now ≤ 5 }
    ensures { result ≡ value_of 0 digits.now }
{
    let mut number = 0;
    for digit in digits {
        number = number * 10 + (*digit - b'0') as u32;
    }
    number
}

/// There are two digits or more, and the first is 0.
fn padded(digits: &[u8]) -> bool
    ensures { IsTrue result ↔ ((1 < length digits.now) × (slice_index digits.now 0 ≡ 48)) }
{
    matches!(digits, [b'0', _, ..])
}

/// The number at the front, of at most five digits and with no leading zero
/// but 0 itself, and what stands behind its last digit.
pub(crate) fn number(bytes: &[u8]) -> Option<(u32, &[u8])>
    ensures { MatchOption result ((n : ℕ) (rest : List ℕ) → Numbered bytes.now n rest → ⊥) (λ x. Numbered bytes.now x.0 x.1.now) }
{
    let (run, rest) = bytes.split_at(digits(bytes));
    if run.is_empty() || run.len() > MOST_DIGITS || padded(run) {
        return None;
    }
    Some((value(run), rest))
}

/// The number at the front that the byte `end` ends, and what stands behind that.
pub(crate) fn field(bytes: &[u8], end: u8) -> Option<(u32, &[u8])>
    requires { is_ascii_digit end ≡ false }
    ensures { MatchOption result ((n : ℕ) (rest : List ℕ) → Fielded bytes.now end n rest → ⊥) (λ x. Fielded bytes.now end x.0 x.1.now) }
{
    let (number, ended) = number(bytes)?;
    let rest = after(ended, &[end])?;
    Some((number, rest))
}
