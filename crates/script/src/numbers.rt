// The numbers of a line: decimal digits, as many as one likes.
ghost use Rattle.std.specs.Prelude.{◌≡◌};
ghost use Rattle.std.specs.Char.{is_ascii_digit};
ghost use Rattle.std.specs.List.{list_all};
ghost use Rattle.script.specs.Text.{number_of};

// The number that a word writes; one too large counts as the largest. By hand: `parse` takes a sign, and fails on what is too large.
pub fn decimal(word: &[u8]) -> Option<u32>
    ensures { result ≡ number_of word.now }
{
    if word.is_empty() || !all_digits(word) {
        return None;
    }
    let value = word.iter().fold(0u32, |n, b| {
        let digit = u32::from(b.saturating_sub(b'0'));
        n.saturating_mul(10).saturating_add(digit)
    });
    Some(value)
}

// Whether a word has digits alone.
fn all_digits(word: &[u8]) -> bool
    ensures { result ≡ list_all is_ascii_digit word.now }
{
    word.iter().all(|b| b.is_ascii_digit())
}
