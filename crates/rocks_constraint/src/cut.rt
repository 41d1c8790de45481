ghost use Rattle.std.specs.Prelude.{◌≡◌, IsTrue};
ghost use Rattle.std.specs.List.{list_all, prefix_len};
ghost use Rattle.rocks_version.specs.Texts.{is_version_byte};
ghost use Rattle.rocks_constraint.specs.Alphabet.{is_blank, may_part, is_operator_byte, IsCut};

use std::str;

/// The blanks that a text begins with, and what is left.
pub fn cut_blanks(text: &[u8]) -> (&[u8], &[u8])
    ensures { IsCut is_blank text.now result.0.now result.1.now }
{
    text.split_at(blank_count(text))
}

/// What may stand behind so many constraints and before the next, and what is left.
pub fn cut_gap(count: usize, text: &[u8]) -> (&[u8], &[u8])
    ensures { IsCut (may_part count) text.now result.0.now result.1.now }
{
    text.split_at(gap_count(count, text))
}

/// The operator bytes that a text begins with, and what is left.
pub fn cut_operator(text: &[u8]) -> (&[u8], &[u8])
    ensures { IsCut is_operator_byte text.now result.0.now result.1.now }
{
    text.split_at(operator_count(text))
}

/// The letters, digits and separators that a text begins with, and what is left.
pub fn cut_run(text: &[u8]) -> (&[u8], &[u8])
    ensures { IsCut is_version_byte text.now result.0.now result.1.now }
{
    text.split_at(run_count(text))
}

/// A run of letters, digits and separators, as a text.
#[tactic(auto, using(crate::proofs::Runs::run_utf8))]
pub fn run_text(run: &[u8]) -> &str
    requires { IsTrue (list_all is_version_byte run.now) }
    ensures { result.now ≡ run.now }
{
    match str::from_utf8(run) {
        Ok(text) => text,
        Err(_) => "",
    }
}

fn blank_count(text: &[u8]) -> usize
    ensures { result ≡ prefix_len is_blank text.now }
{
    text.iter().take_while(|b| is_blank(**b)).count()
}

fn gap_count(count: usize, text: &[u8]) -> usize
    ensures { result ≡ prefix_len (may_part count) text.now }
{
    text.iter().take_while(|b| may_part(count, **b)).count()
}

fn operator_count(text: &[u8]) -> usize
    ensures { result ≡ prefix_len is_operator_byte text.now }
{
    text.iter().take_while(|b| is_operator_byte(**b)).count()
}

fn run_count(text: &[u8]) -> usize
    ensures { result ≡ prefix_len is_version_byte text.now }
{
    text.iter().take_while(|b| is_run_byte(**b)).count()
}

fn is_blank(b: u8) -> bool
    ensures { result ≡ is_blank b }
{
    b == b' ' || b == b'\t'
}

fn may_part(count: usize, b: u8) -> bool
    ensures { result ≡ may_part count b }
{
    is_blank(b) || count > 0 && b == b','
}

fn is_operator_byte(b: u8) -> bool
    ensures { result ≡ is_operator_byte b }
{
    b == b'=' || b == b'~' || b == b'<' || b == b'>' || b == b'!'
}

fn is_run_byte(b: u8) -> bool
    ensures { result ≡ is_version_byte b }
{
    b.is_ascii_alphanumeric() || b == b'-' || b == b'.' || b == b'_'
}
