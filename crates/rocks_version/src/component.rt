ghost use Rattle.std.specs.Prelude.{◌≡◌, ◌<◌, ◌≤◌, ◌↔◌, ◌∷◌, drop, not, length};
ghost use Rattle.std.specs.Prelude.{slice_index, slice_index_or, IsTrue};
ghost use Rattle.std.specs.List.{prefix_len};
ghost use Rattle.std.specs.Char.{is_ascii_alphabetic, is_ascii_alphanumeric, is_ascii_digit};
ghost use Rattle.rocks_version.specs.Components.{components, Number, Word};
ghost use Rattle.rocks_version.specs.Orders.{number_step, word_step, step_of, place_of};
ghost use Rattle.rocks_version.specs.Texts.{has_short_numbers};

use crate::text::{digit_count, number};

/// The steps of the order of components, from the lowest to the highest (LuaRocks).
#[derive(Clone, Copy, Debug, PartialEq, Eq, PartialOrd, Ord)]
pub enum Step {
    /// The word `alpha`.
    Alpha,
    /// The word `beta`.
    Beta,
    /// The word `pre`.
    Pre,
    /// The word `rc`.
    Rc,
    /// The number 0.
    Zero,
    /// Any word that is none of these.
    Other,
    /// A number above 0.
    Positive,
    /// The word `cvs`.
    Cvs,
    /// The word `scm`.
    Scm,
    /// The word `dev`.
    Dev,
}

/// Where a component stands in the order: on which step, and at which place of it. Numbers stand there by themselves,
/// and words by their first byte.
#[derive(Clone, Copy, Debug, PartialEq, Eq, PartialOrd, Ord)]
pub struct Rung {
    pub step: Step,
    pub place: u64,
}

/// The rung of a body's first component, and what follows that component. Behind the last component stands the
/// number 0.
#[tactic(auto, using(crate::proofs::Runs::no_components))]
pub fn first(body: &[u8]) -> (Rung, &[u8])
    requires { IsTrue (has_short_numbers body.now) }
    ensures step { result.0.step ≡ step_of (slice_index_or (components body.now) 0 (Number 0)) }
    ensures place { result.0.place ≡ place_of (slice_index_or (components body.now) 0 (Number 0)) }
    ensures rest { components result.1.now ≡ drop 1 (components body.now) }
    ensures short { IsTrue (has_short_numbers result.1.now) }
    ensures shorter { 0 < length body.now → length result.1.now < length body.now }
    ensures no_longer { length result.1.now ≤ length body.now }
{
    let text = past_separators(body);
    if text.is_empty() {
        return (number_rung(0), text);
    }
    if text[0].is_ascii_digit() {
        let (number, rest) = first_number(text);
        (number_rung(number), rest)
    } else {
        let (word, rest) = first_word(text);
        (word_rung(word), rest)
    }
}

/// Whether a body has a component: a letter or digit.
pub fn has_component(body: &[u8]) -> bool
    requires { IsTrue (has_short_numbers body.now) }
    ensures { IsTrue result ↔ (0 < length (components body.now)) }
{
    !past_separators(body).is_empty()
}

// The body from its first letter or digit on.
fn past_separators(body: &[u8]) -> &[u8]
    requires { IsTrue (has_short_numbers body.now) }
    ensures components { components result.now ≡ components body.now }
    ensures begins { 0 < length result.now
        → IsTrue (is_ascii_alphanumeric (slice_index result.now 0)) }
    ensures short { IsTrue (has_short_numbers result.now) }
    ensures no_longer { length result.now ≤ length body.now }
{
    body.split_at(separator_count(body)).1
}

// The number that a text begins with, and what follows it.
#[tactic(auto, using(crate::proofs::Runs::some_front, crate::proofs::Numbers::short_front))]
fn first_number(text: &[u8]) -> (u64, &[u8])
    requires begins { IsTrue (is_ascii_digit (slice_index text.now 0)) }
    requires short { IsTrue (has_short_numbers text.now) }
    ensures components { components text.now ≡ Number result.0 ∷ components result.1.now }
    ensures short { IsTrue (has_short_numbers result.1.now) }
    ensures shorter { length result.1.now < length text.now }
{
    let (digits, rest) = text.split_at(digit_count(text));
    (number(digits), rest)
}

// The word that a text begins with, and what follows it.
#[tactic(auto, using(crate::proofs::Runs::some_front))]
fn first_word(text: &[u8]) -> (&[u8], &[u8])
    requires begins { IsTrue (is_ascii_alphabetic (slice_index text.now 0)) }
    requires short { IsTrue (has_short_numbers text.now) }
    ensures components { components text.now ≡ Word result.0.now ∷ components result.1.now }
    ensures some { 0 < length result.0.now }
    ensures short { IsTrue (has_short_numbers result.1.now) }
    ensures shorter { length result.1.now < length text.now }
{
    text.split_at(letter_count(text))
}

fn separator_count(text: &[u8]) -> usize
    ensures { result ≡ prefix_len (λ b. not (is_ascii_alphanumeric b)) text.now }
{
    text.iter()
        .take_while(|b| !b.is_ascii_alphanumeric())
        .count()
}

fn letter_count(text: &[u8]) -> usize
    ensures { result ≡ prefix_len is_ascii_alphabetic text.now }
{
    text.iter().take_while(|b| b.is_ascii_alphabetic()).count()
}

fn number_rung(number: u64) -> Rung
    ensures step { result.step ≡ number_step number }
    ensures place { result.place ≡ number }
{
    Rung {
        step: if number == 0 {
            Step::Zero
        } else {
            Step::Positive
        },
        place: number,
    }
}

fn word_rung(word: &[u8]) -> Rung
    requires { 0 < length word.now }
    ensures step { result.step ≡ word_step word.now }
    ensures place { result.place ≡ slice_index word.now 0 }
{
    Rung {
        step: word_step(word),
        place: u64::from(word[0]),
    }
}

#[tactic(auto, unfolding(crate::specs::Orders::word_step))]
fn word_step(word: &[u8]) -> Step
    ensures { result ≡ word_step word.now }
{
    if word == b"alpha".as_slice() {
        Step::Alpha
    } else if word == b"beta".as_slice() {
        Step::Beta
    } else if word == b"pre".as_slice() {
        Step::Pre
    } else if word == b"rc".as_slice() {
        Step::Rc
    } else if word == b"cvs".as_slice() {
        Step::Cvs
    } else if word == b"scm".as_slice() {
        Step::Scm
    } else if word == b"dev".as_slice() {
        Step::Dev
    } else {
        Step::Other
    }
}
