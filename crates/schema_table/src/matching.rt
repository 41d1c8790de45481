//! Which row is a path's.
ghost use Rattle.std.specs.Prelude.{◌≡◌, ◌<◌, ◌↔◌, IsTrue, IfSome, length, not, position};
ghost use Rattle.std.specs.List.{list_all};
ghost use Rattle.schema_table.specs.Paths.{referents};
ghost use Rattle.schema_table.specs.Rows.{is_star, part_matches, matches, row_matches};
ghost use Rattle.schema_table.specs.Rows.{row_matches_exactly, row_number, IsDeeper};
ghost use Rattle.schema_table.specs.Rows.{HasDeeper};

use crate::row::Row;
use lua_value::Key;

fn is_star(part: &str) -> bool
    ensures { result ≡ is_star part.now }
{
    part == "*"
}

pub fn part_matches(part: &str, key: &Key) -> bool
    ensures { result ≡ part_matches part.now key.now }
{
    match key {
        Key::Text(bytes) => is_star(part) || part.as_bytes() == bytes.as_slice(),
        _ => is_star(part),
    }
}

fn matches(parts: &[&str], path: &[&Key]) -> bool
    ensures { result ≡ matches (referents parts.now) (referents path.now) }
{
    if parts.len() != path.len() {
        return false;
    }
    for (at, part) in parts.iter().enumerate() {
        if !part_matches(part, path[at]) {
            return false;
        }
    }
    true
}

fn is_exact(parts: &[&str]) -> bool
    ensures { result ≡ list_all (λ part. not (is_star part)) (referents parts.now) }
{
    for part in parts {
        if is_star(part) {
            return false;
        }
    }
    true
}

fn row_matches(row: &Row, path: &[&Key]) -> bool
    ensures { result ≡ row_matches (referents path.now) row.now }
{
    matches(row.path, path)
}

fn row_matches_exactly(row: &Row, path: &[&Key]) -> bool
    ensures { result ≡ row_matches_exactly (referents path.now) row.now }
{
    is_exact(row.path) && row_matches(row, path)
}

fn first_exact(rows: &[Row], path: &[&Key]) -> Option<usize>
    ensures value { result ≡ position (row_matches_exactly (referents path.now)) rows.now }
    ensures within { IfSome result (λ number. number < length rows.now) }
{
    rows.iter().position(|row| row_matches_exactly(row, path))
}

fn first_match(rows: &[Row], path: &[&Key]) -> Option<usize>
    ensures value { result ≡ position (row_matches (referents path.now)) rows.now }
    ensures within { IfSome result (λ number. number < length rows.now) }
{
    rows.iter().position(|row| row_matches(row, path))
}

/// The number of the path's row, counted from 0. None where the path has no row.
pub fn row_number(rows: &[Row], path: &[&Key]) -> Option<usize>
    ensures value { result ≡ row_number rows.now (referents path.now) }
    ensures within { IfSome result (λ number. number < length rows.now) }
{
    match first_exact(rows, path) {
        Some(number) => Some(number),
        None => first_match(rows, path),
    }
}

fn is_deeper(row: &Row, path: &[&Key]) -> bool
    ensures { IsTrue result ↔ IsDeeper (referents path.now) row.now }
{
    match row.path.split_last() {
        Some((_, front)) => matches(front, path),
        None => false,
    }
}

/// Whether a row has one more part than the path, and those before it match the path.
pub fn has_deeper(rows: &[Row], path: &[&Key]) -> bool
    ensures { IsTrue result ↔ HasDeeper rows.now (referents path.now) }
{
    rows.iter().any(|row| is_deeper(row, path))
}
