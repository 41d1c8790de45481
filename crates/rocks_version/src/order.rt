ghost use Rattle.std.specs.Prelude.{◌≡◌, unwrap_or, IsTrue};
ghost use Rattle.std.specs.Ordering.{nat_cmp, ordering_then};
ghost use Rattle.rocks_version.specs.Components.{components};
ghost use Rattle.rocks_version.specs.Orders.{step_cmp, components_cmp, body_cmp, revision_cmp};
ghost use Rattle.rocks_version.specs.Orders.{version_cmp, version_rank};
ghost use Rattle.rocks_version.specs.Texts.{is_version, has_short_numbers};

use crate::Version;
use crate::component::{Rung, first};
use crate::text::{body, revision};
use std::cmp::Ordering;

/// Compares two versions as LuaRocks does: by the components of their bodies, the shorter one followed by zeros, and
/// then by their revisions, where both have one. It takes no memory. Versions with and without a revision are not
/// ordered by it: 1.0-1 and 1.0 are equal to it, and 1.0 and 1.0-2, but not 1.0-1 and 1.0-2.
pub fn compare(left: &Version, right: &Version) -> Ordering
    ensures { result ≡ version_cmp left.now right.now }
{
    compare_texts(left.as_str().as_bytes(), right.as_str().as_bytes())
}

/// Orders all versions: as `compare` does by the bodies, then by the revisions, where none counts as 0, and then by
/// the bytes of the texts. It takes no memory.
pub fn rank(left: &Version, right: &Version) -> Ordering
    ensures { result ≡ version_rank left.now right.now }
{
    rank_texts(left.as_str().as_bytes(), right.as_str().as_bytes())
}

#[tactic(auto, unfolding(crate::specs::Orders::version_cmp), using(crate::proofs::Parts::version_short))]
fn compare_texts(left: &[u8], right: &[u8]) -> Ordering
    requires left { IsTrue (is_version left.now) }
    requires right { IsTrue (is_version right.now) }
    ensures { result ≡ version_cmp left.now right.now }
{
    compare_bodies(left, right).then(compare_revisions(revision(left), revision(right)))
}

#[tactic(auto, unfolding(crate::specs::Orders::version_rank), using(crate::proofs::Parts::version_short))]
fn rank_texts(left: &[u8], right: &[u8]) -> Ordering
    requires left { IsTrue (is_version left.now) }
    requires right { IsTrue (is_version right.now) }
    ensures { result ≡ version_rank left.now right.now }
{
    let left_revision = revision(left).unwrap_or(0);
    let right_revision = revision(right).unwrap_or(0);
    compare_bodies(left, right)
        .then(left_revision.cmp(&right_revision))
        .then(left.cmp(right))
}

#[tactic(auto, using(crate::proofs::Parts::version_body_short))]
fn compare_bodies(left: &[u8], right: &[u8]) -> Ordering
    requires left { IsTrue (is_version left.now) }
    requires right { IsTrue (is_version right.now) }
    ensures { result ≡ body_cmp left.now right.now }
{
    compare_components(body(left), body(right))
}

fn compare_components(left: &[u8], right: &[u8]) -> Ordering
    requires left { IsTrue (has_short_numbers left.now) }
    requires right { IsTrue (has_short_numbers right.now) }
    ensures { result ≡ components_cmp (components left.now) (components right.now) }
{
    if left.is_empty() && right.is_empty() {
        return Ordering::Equal;
    }
    let (left_rung, left_rest) = first(left);
    let (right_rung, right_rest) = first(right);
    match compare_rungs(left_rung, right_rung) {
        Ordering::Equal => compare_components(left_rest, right_rest),
        unequal => unequal,
    }
}

fn compare_rungs(left: Rung, right: Rung) -> Ordering
    ensures { result
        ≡ ordering_then (step_cmp left.step right.step) (nat_cmp left.place right.place) }
{
    left.cmp(&right)
}

fn compare_revisions(left: Option<u64>, right: Option<u64>) -> Ordering
    ensures { result ≡ revision_cmp left right }
{
    match (left, right) {
        (Some(left), Some(right)) => left.cmp(&right),
        _ => Ordering::Equal,
    }
}
