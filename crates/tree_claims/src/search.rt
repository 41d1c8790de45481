//! Searches in entries that stand in the order of their paths.
ghost use Rattle.std.specs.Prelude.{◌≡◌, ◌≢◌, ◌↔◌, ◌≤◌, ◌<◌, ◌⊎◌, ℕ, List, ◌++◌, length, false};
ghost use Rattle.std.specs.Prelude.{IfOk, IsTrue, MatchOption};
ghost use Rattle.std.specs.List.{AllWithin, Any, prefix_len, take_while};
ghost use Rattle.std.specs.Bool.{MatchBool};
ghost use Rattle.std.specs.List.Sorted.{IsSortedBy};
ghost use Rattle.std.specs.Option.{option_copied};
ghost use Rattle.std.specs.Ordering.{eq_by_cmp};
ghost use Rattle.std.specs.declared.cmp.Ordering.TheVariants.{Less};
ghost use Rattle.rocks_text.specs.Files.{path_cmp};
ghost use Rattle.rocks_text.specs.Paths.{IsFolderOf};
ghost use Rattle.rocks_version.specs.Keys.{is_before};
ghost use Rattle.tree_claims.specs.Index.{goes_before, may_stand, AreOfPath, Hits, IsFree};
ghost use Rattle.tree_claims.specs.Index.{first_of, GoesFirst, IsFirstHit, IsHitBy, IsLeastHit};

use crate::entry::{Entry, is_hit, may_stand};
use rocks_text::TreePath;
use rocks_version::{RockKey, before};
use std::alloc::{AllocError, Global};

/// The place of the first of some entries that can't stand beside one of its own or of the others.
/// The only error is want of memory.
pub fn first_hit(
    alloc: Global,
    others: &[Entry],
    own: &[Entry],
) -> Result<Option<usize>, AllocError>
    requires others { IsSortedBy goes_before others.now }
    requires own { IsSortedBy goes_before own.now }
    ensures { IfOk result (IsFirstHit others.now own.now) }
{
    for (at, mine) in own.iter().enumerate() {
        if !is_free(alloc, others, own, mine)? {
            return Ok(Some(at));
        }
    }
    Ok(None)
}

// Whether none of the others and none of the own entries is in this one's way. The only error is
// want of memory.
fn is_free(alloc: Global, others: &[Entry], own: &[Entry], mine: &Entry) -> Result<bool, AllocError>
    requires others { IsSortedBy goes_before others.now }
    requires own { IsSortedBy goes_before own.now }
    ensures { IfOk result (λ free. MatchBool free
        (IsFree others.now own.now mine.now)
        (Any (Hits mine.now) others.now ⊎ Any (Hits mine.now) own.now)) }
{
    if is_met(alloc, others, mine)? {
        return Ok(false);
    }
    Ok(!is_met(alloc, own, mine)?)
}

/// The rock that is listed first of those with an entry that one of some entries can't stand
/// beside.
pub fn least_hit<'a>(others: &'a [Entry], mine: &[Entry]) -> Option<&'a RockKey>
    ensures { IsLeastHit others.now mine.now (option_copied result) }
{
    let mut least = None;
    for other in others {
        if is_next(mine, other, least) {
            least = Some(&other.key);
        }
    }
    least
}

// Whether one of some entries is in another one's way, whose rock is listed before this one, if
// there is one.
fn is_next(mine: &[Entry], other: &Entry, least: Option<&RockKey>) -> bool
    ensures { MatchBool result
        (IsHitBy mine.now other.now × GoesFirst other.now.key (option_copied least.entry))
        (IsHitBy mine.now other.now → ¬ (GoesFirst other.now.key (option_copied least.entry))) }
{
    is_hit_by(mine, other) && goes_first(&other.key, least)
}

fn goes_first(key: &RockKey, least: Option<&RockKey>) -> bool
    ensures { IsTrue result ↔ GoesFirst key.now (option_copied least.entry) }
{
    match least {
        Some(least) => before(key, least),
        None => true,
    }
}

/// Which of two rocks is listed first: this one, if it is in question, or the other, if there is
/// one.
pub fn first_of<'a>(
    key: &'a RockKey,
    is_in_question: bool,
    other: Option<&'a RockKey>,
) -> &'a RockKey
    ensures { result.now ≡ first_of key.now is_in_question (option_copied other.entry) }
{
    match other {
        Some(other) if !(is_in_question && before(key, other)) => other,
        _ => key,
    }
}

/// Whether one of some entries is in the way of one of some others.
pub fn hits_any(mine: &[Entry], others: &[Entry]) -> bool
    ensures { IsTrue result ↔ Any (IsHitBy mine.now) others.now }
{
    others.iter().any(|other| is_hit_by(mine, other))
}

// Whether one of some entries is in another one's way.
fn is_hit_by(mine: &[Entry], other: &Entry) -> bool
    ensures { IsTrue result ↔ IsHitBy mine.now other.now }
{
    mine.iter().any(|entry| is_hit(entry, other))
}

/// The entries from a place on that have the path of the one at that place.
pub fn same_path(entries: &[Entry], first: usize) -> &[Entry]
    requires within { first < length entries.now }
    requires in_order { IsSortedBy goes_before entries.now }
    ensures { AreOfPath entries.now first result.now }
{
    front_row(&entries[first..], &entries[first].path)
}

// The entries at the front that have this path.
fn front_row<'a>(entries: &'a [Entry], path: &TreePath) -> &'a [Entry]
    ensures { result.now
        ≡ take_while (λ entry. eq_by_cmp path_cmp entry.path path.now) entries.now }
{
    &entries[..front_row_len(entries, path)]
}

fn front_row_len(entries: &[Entry], path: &TreePath) -> usize
    ensures { result ≡ prefix_len (λ entry. eq_by_cmp path_cmp entry.path path.now) entries.now }
{
    entries
        .iter()
        .take_while(|entry| entry.path == *path)
        .count()
}

// Whether one of the entries can't stand beside this one. The only error is want of memory.
fn is_met(alloc: Global, entries: &[Entry], mine: &Entry) -> Result<bool, AllocError>
    requires { IsSortedBy goes_before entries.now }
    ensures { IfOk result (λ met. IsTrue met ↔ Any (Hits mine.now) entries.now) }
{
    if is_met_at(entries, mine) {
        return Ok(true);
    }
    if is_met_above(entries, mine) {
        return Ok(true);
    }
    is_met_below(alloc, entries, mine)
}

// Whether an entry of the same path is in the way.
fn is_met_at(entries: &[Entry], mine: &Entry) -> bool
    requires { IsSortedBy goes_before entries.now }
    ensures { IsTrue result ↔ Any
        (λ other. (other.path ≡ mine.now.path) × (may_stand mine.now other ≡ false))
        entries.now }
{
    let at = first_from(entries, mine.path.as_str().as_bytes());
    has_apart(front_row(&entries[at..], &mine.path), mine)
}

fn has_apart(entries: &[Entry], mine: &Entry) -> bool
    ensures { IsTrue result ↔ Any (λ other. may_stand mine.now other ≡ false) entries.now }
{
    entries.iter().any(|other| !may_stand(mine, other))
}

// Whether an entry stands at a folder of the path.
fn is_met_above(entries: &[Entry], mine: &Entry) -> bool
    requires { IsSortedBy goes_before entries.now }
    ensures { IsTrue result ↔ Any (λ other. IsFolderOf other.path mine.now.path) entries.now }
{
    let path = mine.path.as_str().as_bytes();
    for (at, b) in path.iter().enumerate() {
        if *b == b'/' && has_path(entries, &path[..at]) {
            return true;
        }
    }
    false
}

// Whether an entry stands below the path. The only error is want of memory.
fn is_met_below(alloc: Global, entries: &[Entry], mine: &Entry) -> Result<bool, AllocError>
    requires { IsSortedBy goes_before entries.now }
    ensures { IfOk result (λ met. IsTrue met
        ↔ Any (λ other. IsFolderOf mine.now.path other.path) entries.now) }
{
    let path = mine.path.as_str();
    let folder = format!(in alloc; "{path}/")?;
    Ok(has_front(entries, folder.as_bytes()))
}

fn has_front(entries: &[Entry], front: &[u8]) -> bool
    requires { IsSortedBy goes_before entries.now }
    ensures { IsTrue result
        ↔ Any (λ other. (rest : List ℕ) × (other.path ≡ front.now ++ rest)) entries.now }
{
    let at = first_from(entries, front);
    at < entries.len() && entries[at].path.as_str().as_bytes().starts_with(front)
}

fn has_path(entries: &[Entry], path: &[u8]) -> bool
    requires { IsSortedBy goes_before entries.now }
    ensures { IsTrue result ↔ Any (λ other. other.path ≡ path.now) entries.now }
{
    let at = first_from(entries, path);
    at < entries.len() && entries[at].path.as_str().as_bytes() == path
}

// The place of the first entry whose path isn't less than this one.
fn first_from(entries: &[Entry], path: &[u8]) -> usize
    requires { IsSortedBy goes_before entries.now }
    ensures within { result ≤ length entries.now }
    ensures less { AllWithin (λ entry. path_cmp entry.path path.now ≡ Less) entries.now 0 result }
    ensures others { AllWithin (λ entry. path_cmp entry.path path.now ≢ Less)
        entries.now result (length entries.now) }
{
    entries.partition_point(|entry| entry.path.as_str().as_bytes().cmp(path).is_lt())
}
