// The words of a line: what stands between spaces and tabs.
ghost use Rattle.std.specs.Prelude.{◌≡◌, ℕ, ◌<◌, ◌≤◌, true, false, not, List, ◌∷◌, length, OnSome, MatchOption, MatchResult};
ghost use Rattle.std.specs.Iterator.{YieldsFirstRef, item_count};
ghost use Rattle.std.specs.List.{prefix_len};
ghost use Rattle.std.specs.Str.{bytes_eq};
ghost use Rattle.script.specs.Steps.{Began, Lacks, Misses, Stops};
ghost use Rattle.script.specs.Text.{is_blank, to_come, words_of};

use super::line::NoLine;
use super::numbers::decimal;

// What has not been read yet.
#[derive(Clone, Copy)]
pub struct Words<'a> {
    pub rest: &'a [u8],
}

impl<'a> Iterator for Words<'a> {
    type Item = &'a [u8];

    ghost next_gives = { YieldsFirstRef to_come };

    ghost remaining = { item_count to_come };

    fn next(&mut self) -> Option<&'a [u8]> {
        Words::next(self)
    }
}

impl<'a> Words<'a> {
    // The words of a text.
    pub fn new(text: &'a [u8]) -> Words<'a>
        ensures { to_come result ≡ words_of text.now }
    {
        Words { rest: text }
    }

    // The next word. The trait's `next` is this, without the last clause: a loop proves its end by the trait's own.
    #[inline(always)]
    pub fn next(&mut self) -> Option<&'a [u8]>
        ensures steps { YieldsFirstRef to_come self.old result self.new }
        ensures shorter { OnSome result (length self.new.rest.now < length self.old.rest.now) }
    {
        let (_, text) = self.rest.split_at(blanks_len(self.rest));
        let (word, rest) = text.split_at(word_len(text));
        if word.is_empty() {
            return None;
        }
        self.rest = rest;
        Some(word)
    }

    // The next word, unless it is this one, which then stays.
    pub(crate) fn next_unless(&mut self, name: &[u8]) -> Option<&'a [u8]>
        ensures { MatchOption result ((self.new ≡ self.old) × Stops name.now (to_come self.old)) (λ w. (to_come self.old ≡ w.now ∷ to_come self.new) × (bytes_eq w.now name.now ≡ false)) }
    {
        let mut ahead = *self;
        let word = ahead.next()?;
        if word == name {
            return None;
        }
        *self = ahead;
        Some(word)
    }

    // The number that comes next.
    #[inline(always)]
    pub(crate) fn number(&mut self) -> Result<u32, NoLine>
        ensures { MatchResult result (λ n. Began n (to_come self.old) (to_come self.new)) (λ _. Lacks (to_come self.old)) }
    {
        let word = self.next().ok_or(NoLine::MissingWord)?;
        decimal(word).ok_or(NoLine::NotANumber)
    }

    // Passes over this word.
    #[inline(always)]
    pub(crate) fn keyword(&mut self, name: &[u8]) -> Result<(), NoLine>
        ensures { MatchResult result (λ _. (w : List ℕ) × (to_come self.old ≡ w ∷ to_come self.new) × (bytes_eq w name.now ≡ true)) (λ _. Misses name.now (to_come self.old)) }
    {
        let word = self.next().ok_or(NoLine::MissingWord)?;
        if word == name {
            Ok(())
        } else {
            Err(NoLine::UnknownWord)
        }
    }
}

fn is_blank(b: u8) -> bool
    ensures { result ≡ is_blank b }
{
    matches!(b, b' ' | b'\t')
}

// How many blanks a text begins with. (This and the next differ in a test: a function that takes it would be no shorter.)
fn blanks_len(text: &[u8]) -> usize
    ensures value { result ≡ prefix_len is_blank text.now }
    ensures within { result ≤ length text.now }
{
    text.iter().take_while(|b| is_blank(**b)).count()
}

// How many bytes stand before the first blank of a text.
fn word_len(text: &[u8]) -> usize
    ensures value { result ≡ prefix_len (λ b. not (is_blank b)) text.now }
    ensures within { result ≤ length text.now }
{
    text.iter().take_while(|b| !is_blank(**b)).count()
}
