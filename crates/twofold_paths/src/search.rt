//! Searches in places that stand in order.
ghost use Rattle.std.specs.Prelude.{◌≡◌, ◌↔◌, ◌<◌, length, slice_index_or, IsTrue, Contains};
ghost use Rattle.std.specs.List.Sorted.{IsBinarySearchResult, IsSearchInRange, IsSorted};
ghost use Rattle.std.specs.Option.{option_copied};
ghost use Rattle.twofold_paths.specs.Search.{place_cmp, IsAgain, IsBelowOne, IsTaken};
ghost use Rattle.twofold_paths.specs.Search.{GoesFirst, IsLeastTaken};
ghost use Rattle.twofold_paths.specs.declared.place.Place.{Place as APlace};

use crate::Place;
use rocks_text::FilePath;

/// The least path of a place that is equal to the one before it or below another of its sort.
pub fn least_taken(places: &[Place]) -> Option<&FilePath>
    requires { IsSorted place_cmp places.now }
    ensures { IsLeastTaken places.now (length places.now) (option_copied result) }
{
    let mut least = None;
    for (at, place) in places.iter().enumerate() {
        if is_next(places, at, least) {
            least = Some(&place.path);
        }
    }
    least
}

// Whether a place is taken, and its path goes before this one, if there is one.
fn is_next(places: &[Place], at: usize, least: Option<&FilePath>) -> bool
    requires within { at < length places.now }
    requires in_order { IsSorted place_cmp places.now }
    ensures { IsTrue result ↔ (IsTaken places.now at
        × ((d : APlace) → GoesFirst (slice_index_or places.now at d).path
        (option_copied least.entry))) }
{
    is_taken(places, at) && goes_first(&places[at].path, least)
}

fn goes_first(path: &FilePath, least: Option<&FilePath>) -> bool
    ensures { IsTrue result ↔ GoesFirst path.now (option_copied least.entry) }
{
    match least {
        Some(least) => path < least,
        None => true,
    }
}

fn is_taken(places: &[Place], at: usize) -> bool
    requires within { at < length places.now }
    requires in_order { IsSorted place_cmp places.now }
    ensures { IsTrue result ↔ IsTaken places.now at }
{
    is_again(places, at) || is_below_one(places, &places[at])
}

fn is_again(places: &[Place], at: usize) -> bool
    requires { at < length places.now }
    ensures { IsTrue result ↔ IsAgain places.now at }
{
    at > 0 && places[at - 1] == places[at]
}

fn is_below_one(places: &[Place], place: &Place) -> bool
    requires { IsSorted place_cmp places.now }
    ensures { IsTrue result ↔ IsBelowOne places.now place.now }
{
    let path = place.path.as_str().as_bytes();
    for (at, b) in path.iter().enumerate() {
        if *b == b'/' && has_place(places, place.sort, &path[..at]) {
            return true;
        }
    }
    false
}

fn has_place(places: &[Place], sort: u8, path: &[u8]) -> bool
    requires { IsSorted place_cmp places.now }
    ensures { IsTrue result ↔ Contains places.now (record { sort = sort; path = path.now }) }
{
    place_of(places, sort, path).is_ok()
}

// Where the place of a sort and a path stands, or would stand.
fn place_of(places: &[Place], sort: u8, path: &[u8]) -> Result<usize, usize>
    ensures bound { IsSearchInRange result (length places.now) }
    ensures place { IsBinarySearchResult
        (λ place. place_cmp place (record { sort = sort; path = path.now })) places.now result }
{
    places.binary_search_by(|place| {
        place
            .sort
            .cmp(&sort)
            .then(place.path.as_str().as_bytes().cmp(path))
    })
}
