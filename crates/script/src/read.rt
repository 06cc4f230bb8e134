// Lines are read word by word.
ghost use Rattle.std.specs.Prelude.{◌≡◌, ℕ, List, [], ◌∷◌, Option, Result};
ghost use Rattle.script.specs.Text.{to_come, words_of};
ghost use Rattle.script.specs.Forms.{ReadsBack};
ghost use Rattle.script.specs.Lines.{Said, Written, draws_line, heard, line_of, needs_line, only, part_line, part_with, said_of, slow_line, user_line, with_number};
ghost use Rattle.script.specs.Steps.{Drew, Gathered, only_if};
ghost use Rattle.script.specs.declared.line.Line.{Line};
ghost use Rattle.script.specs.declared.line.NoLine.{NoLine};

use super::line::{Line, NoLine};
use super::needs::all_needs;
use super::numbers::decimal;
use super::spread::Spread;
use super::words::Words;
use sim::plan::PlanPart;

// Draws may be of any size.
type Draws = Spread<{ u32::MAX }>;

// What a text says, or why it says nothing.
pub fn read_line(text: &[u8]) -> Result<Line, NoLine>
    ensures { heard result ≡ line_of (words_of text.now) }
{
    let mut words = Words::new(text);
    let word = words.next().ok_or(NoLine::Empty)?;
    match word {
        b"part" => part(words),
        b"run" => alone(Line::Run, words),
        b"new" => alone(Line::New, words),
        b"tick" => one_number(Line::Tick, words),
        b"bad" => one_number(Line::Bad, words),
        b"slow" => two_numbers(slow, words),
        b"least" => alone(Line::Least, words),
        b"gives" => one_number(Line::Gives, words),
        b"drawn" => alone(Line::Drawn, words),
        _ => by_user(decimal(word).ok_or(NoLine::UnknownWord)?, words),
    }
}

// Whatever can be written is read as what it means.
pub fn lines_read_back() -> u8
    ensures { ReadsBack }
{
    0
}

// A line that has no word more.
#[inline(always)]
fn alone(line: Line, mut words: Words<'_>) -> Result<Line, NoLine>
    ensures { heard result ≡ only (said_of line) (to_come words.entry) }
{
    match words.next() {
        None => Ok(line),
        Some(_) => Err(NoLine::ExtraWord),
    }
}

// A number, and the line that `say` makes of it.
#[inline(always)]
fn one_number<F: FnOnce(u32) -> Line>(say: F, mut words: Words<'_>) -> Result<Line, NoLine>
    requires { F.IsAlwaysCallable say }
    ensures { (f : ℕ → Said) → ((n : ℕ) (l : Line) → F.post say n l → said_of l ≡ f n) → heard result ≡ with_number (λ n. only (f n)) (to_come words.entry) }
{
    let n = words.number()?;
    if words.next().is_some() {
        return Err(NoLine::ExtraWord);
    }
    Ok(say(n))
}

// Two numbers, and the line that `say` makes of them, if it makes one.
#[inline(always)]
fn two_numbers<F: FnOnce(u32, u32) -> Result<Line, NoLine>>(
    say: F,
    mut words: Words<'_>,
) -> Result<Line, NoLine>
    requires { F.IsAlwaysCallable say }
    ensures { (f : ℕ → ℕ → List (List ℕ) → Option Said) → ((m n : ℕ) (r : Result Line NoLine) (ws : List (List ℕ)) → F.post say m n r → only_if (heard r) ws ≡ f m n ws) → heard result ≡ with_number (λ m. with_number (f m)) (to_come words.entry) }
{
    let m = words.number()?;
    let n = words.number()?;
    let said = say(m, n);
    if said.is_err() {
        return said;
    }
    if words.next().is_some() {
        return Err(NoLine::ExtraWord);
    }
    said
}

// Part x is good when asked for the nth time.
fn slow(x: u32, n: u32) -> Result<Line, NoLine>
    ensures { (ws : List (List ℕ)) → only_if (heard result) ws ≡ slow_line x n ws }
{
    if n == 0 {
        Err(NoLine::NeverAsked)
    } else {
        Ok(Line::Slow(x, n))
    }
}

// What a user does: `give`, or `want X L`.
fn by_user(user: u32, mut words: Words<'_>) -> Result<Line, NoLine>
    ensures { heard result ≡ user_line user (to_come words.entry) }
{
    let word = words.next().ok_or(NoLine::MissingWord)?;
    match word {
        b"give" => alone(Line::Give(user), words),
        b"want" => two_numbers(|x, l| Ok(Line::Want(user, x, l)), words),
        _ => Err(NoLine::UnknownWord),
    }
}

// A part that draws nothing and needs nothing, or what follows `draws` or `needs`.
fn part(mut words: Words<'_>) -> Result<Line, NoLine>
    ensures { heard result ≡ with_number part_line (to_come words.entry) }
{
    let x = words.number()?;
    match words.next() {
        None => Ok(whole(x, Some(Spread::new()), Some(PlanPart::none()))),
        Some(b"draws") => with_draws(x, words),
        Some(b"needs") => with_needs(x, Some(Spread::new()), words),
        Some(_) => Err(NoLine::UnknownWord),
    }
}

// What part x draws, and what it needs.
fn with_draws(x: u32, mut words: Words<'_>) -> Result<Line, NoLine>
    ensures { heard result ≡ with_number (λ d. draws_line x (d ∷ [])) (to_come words.entry) }
{
    let draws = Spread::read(&mut words, b"needs")?;
    match words.next() {
        None => Ok(whole(x, draws, Some(PlanPart::none()))),
        Some(_) => with_needs(x, draws, words),
    }
}

// What part x needs, after what it draws.
fn with_needs(x: u32, draws: Option<Draws>, mut words: Words<'_>) -> Result<Line, NoLine>
    ensures { (ds : List ℕ) → Drew draws ds → heard result ≡ needs_line x ds (to_come words.entry) }
{
    let needs = all_needs(&mut words)?;
    Ok(whole(x, draws, needs))
}

// Part x with these draws and needs, if a plan can hold them.
fn whole(x: u32, draws: Option<Draws>, needs: Option<PlanPart>) -> Line
    ensures { (ds : List ℕ) (ws : List Written) → Drew draws ds → Gathered needs ws → said_of result ≡ part_with x ds ws }
{
    let (Some(draws), Some(mut part)) = (draws, needs) else {
        return Line::Unfit(x);
    };
    part.set_draw(draws.levels());
    Line::Part(x, part)
}
