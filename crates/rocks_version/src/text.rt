ghost use Rattle.std.specs.Prelude.{◌≡◌, ◌≤◌, false, true, not, length, slice_index};
ghost use Rattle.std.specs.Prelude.{IsTrue, MatchOption};
ghost use Rattle.std.specs.List.{list_all, position, prefix_len, suffix_len};
ghost use Rattle.std.specs.List.{before_last, after_last};
ghost use Rattle.std.specs.Char.{is_ascii_digit, is_ascii_alphanumeric};
ghost use Rattle.std.specs.Str.Parse.{digits_value};
ghost use Rattle.rocks_version.specs.Texts.{is_dash, is_version_byte, is_numeral, has_revision};
ghost use Rattle.rocks_version.specs.Texts.{body, revision, has_form, has_short_numbers};
ghost use Rattle.rocks_version.specs.Texts.{is_rock_byte, is_rock_version, is_version};
ghost use Rattle.rocks_version.specs.Faults.{bad_place, long_number_place, fault_of};

use crate::VersionFault;

/// The longest version, in bytes.
const LONGEST: usize = 40;

/// The most digits of one number.
const MOST_DIGITS: usize = 18;

/// The fault of a text that is no version.
#[tactic(auto, using(crate::proofs::Parts::form_is, crate::proofs::FaultLemmas::fault_is))]
pub fn fault_of(text: &[u8]) -> Option<VersionFault>
    ensures { result ≡ fault_of text.now }
{
    if !has_form(text) {
        return Some(VersionFault::BadVersion {
            place: bad_place(text),
        });
    }
    let place = long_number_place(text);
    if place < text.len() {
        return Some(VersionFault::NumberTooLong {
            place: place as u32,
        });
    }
    None
}

#[tactic(auto, using(crate::proofs::Parts::form_is))]
fn has_form(text: &[u8]) -> bool
    ensures { result ≡ has_form text.now }
{
    begins_well(text) && text.len() <= LONGEST && are_version_bytes(text)
}

fn begins_well(text: &[u8]) -> bool
    ensures { result ≡ is_ascii_alphanumeric (slice_index text.now 0) }
{
    !text.is_empty() && text[0].is_ascii_alphanumeric()
}

fn are_version_bytes(text: &[u8]) -> bool
    ensures { result ≡ list_all is_version_byte text.now }
{
    text.iter().all(|b| is_version_byte(*b))
}

fn is_version_byte(b: u8) -> bool
    ensures { result ≡ is_version_byte b }
{
    b.is_ascii_alphanumeric() || b == b'-' || b == b'.' || b == b'_'
}

fn bad_place(text: &[u8]) -> u32
    ensures { result ≡ bad_place text.now }
{
    match bad_byte(text) {
        Some(place) => u32::try_from(place).unwrap_or(u32::MAX),
        None if text.len() > LONGEST => LONGEST as u32,
        None => 0,
    }
}

fn bad_byte(text: &[u8]) -> Option<usize>
    ensures { result ≡ position (λ b. not (is_version_byte b)) text.now }
{
    text.iter().position(|b| !is_version_byte(*b))
}

fn long_number_place(text: &[u8]) -> usize
    ensures { result ≡ long_number_place text.now }
{
    for place in 0..text.len() {
        if digit_count(&text[place..]) > MOST_DIGITS {
            return place;
        }
    }
    text.len()
}

/// How many digits a text begins with.
pub fn digit_count(text: &[u8]) -> usize
    ensures { result ≡ prefix_len is_ascii_digit text.now }
{
    text.iter().take_while(|b| b.is_ascii_digit()).count()
}

/// The text before the revision and its dash.
#[tactic(auto, unfolding(crate::specs::Texts::body))]
pub fn body(text: &[u8]) -> &[u8]
    ensures { result.now ≡ body text.now }
{
    match parts(text) {
        Some((before, _)) => before,
        None => text,
    }
}

/// The revision, if the text has one.
#[tactic(auto, unfolding(crate::specs::Texts::revision), using(crate::proofs::Parts::revision_digits, crate::proofs::Parts::revision_short))]
pub fn revision(text: &[u8]) -> Option<u64>
    requires { IsTrue (has_short_numbers text.now) }
    ensures { result ≡ revision text.now }
{
    let (_, digits) = parts(text)?;
    Some(number(digits))
}

// What stands before and behind the dash of a revision.
#[tactic(auto, using(crate::proofs::Parts::revision_is))]
fn parts(text: &[u8]) -> Option<(&[u8], &[u8])>
    ensures { MatchOption result (has_revision text.now ≡ false) (λ parts.
        (has_revision text.now ≡ true)
        × (parts.0.now ≡ before_last is_dash text.now)
        × (parts.1.now ≡ after_last is_dash text.now)) }
{
    let behind = text.len() - bytes_behind_dash(text);
    if behind <= 1 {
        return None;
    }
    let digits = &text[behind..];
    if is_numeral(digits) {
        Some((&text[..behind - 1], digits))
    } else {
        None
    }
}

// How many bytes stand behind the last dash, or all where there is none.
fn bytes_behind_dash(text: &[u8]) -> usize
    ensures { result ≡ suffix_len (λ b. not (is_dash b)) text.now }
{
    text.iter().rev().take_while(|b| **b != b'-').count()
}

fn is_numeral(digits: &[u8]) -> bool
    ensures { result ≡ is_numeral digits.now }
{
    !digits.is_empty() && are_digits(digits)
}

fn are_digits(text: &[u8]) -> bool
    ensures { result ≡ list_all is_ascii_digit text.now }
{
    text.iter().all(|b| b.is_ascii_digit())
}

/// The number that digits write.
pub fn number(digits: &[u8]) -> u64
    requires digits { IsTrue (list_all is_ascii_digit digits.now) }
    requires few { length digits.now ≤ MOST_DIGITS }
    ensures { result ≡ digits_value 10 digits.now }
{
    let mut number = 0;
    for digit in digits {
        number = number * 10 + u64::from(*digit - b'0');
    }
    number
}

/// Whether a version is one of a rock.
#[tactic(auto, using(crate::proofs::Parts::rock_version_is))]
pub fn is_rock_version(text: &[u8]) -> bool
    requires { IsTrue (is_version text.now) }
    ensures { result ≡ is_rock_version text.now }
{
    match parts(text) {
        Some((before, _)) => are_rock_bytes(before),
        None => false,
    }
}

fn are_rock_bytes(text: &[u8]) -> bool
    ensures { result ≡ list_all is_rock_byte text.now }
{
    text.iter().all(|b| is_rock_byte(*b))
}

fn is_rock_byte(b: u8) -> bool
    ensures { result ≡ is_rock_byte b }
{
    b.is_ascii_alphanumeric() || b == b'.'
}
