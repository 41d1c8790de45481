ghost use Rattle.std.specs.Prelude.{◌≡◌, IsTrue};
ghost use Rattle.std.specs.Ordering.{is_eq, nat_cmp, ordering_then};
ghost use Rattle.rocks_version.specs.Components.{components};
ghost use Rattle.rocks_version.specs.Orders.{step_cmp};
ghost use Rattle.rocks_version.specs.Texts.{has_short_numbers};
ghost use Rattle.rocks_constraint.specs.Meets.{are_same, begin_with, is_equal, is_near, holds};
ghost use Rattle.rocks_constraint.specs.Meets.{same_revisions, near_revisions, meets_all};

use crate::{Constraint, Operator};
use rocks_version::{Rung, Version, compare, first, has_component};

/// Whether a version meets every constraint of a list. It takes no memory.
pub fn meets(version: &Version, constraints: &[Constraint]) -> bool
    ensures { result ≡ meets_all version.now constraints.now }
{
    constraints.iter().all(|constraint| holds(version, constraint.operator, &constraint.version))
}

#[tactic(auto, unfolding(crate::specs::Meets::holds))]
fn holds(version: &Version, operator: Operator, given: &Version) -> bool
    ensures { result ≡ holds operator version.now given.now }
{
    match operator {
        Operator::Eq => is_equal(version, given),
        Operator::Ne => !is_equal(version, given),
        Operator::Lt => compare(version, given).is_lt(),
        Operator::Gt => compare(version, given).is_gt(),
        Operator::Le => compare(version, given).is_le(),
        Operator::Ge => compare(version, given).is_ge(),
        Operator::Near => is_near(version, given),
    }
}

fn is_equal(version: &Version, given: &Version) -> bool
    ensures { result ≡ is_equal version.now given.now }
{
    are_same(version.body(), given.body()) && same_revisions(version.revision(), given.revision())
}

fn is_near(version: &Version, given: &Version) -> bool
    ensures { result ≡ is_near version.now given.now }
{
    begin_with(version.body(), given.body()) && near_revisions(version.revision(), given.revision())
}

fn are_same(left: &[u8], right: &[u8]) -> bool
    requires left { IsTrue (has_short_numbers left.now) }
    requires right { IsTrue (has_short_numbers right.now) }
    ensures { result ≡ are_same (components left.now) (components right.now) }
{
    if !has_component(left) {
        return !has_component(right);
    }
    if !has_component(right) {
        return false;
    }
    let (left_rung, left_rest) = first(left);
    let (right_rung, right_rest) = first(right);
    if are_equal(left_rung, right_rung) {
        are_same(left_rest, right_rest)
    } else {
        false
    }
}

fn begin_with(body: &[u8], given: &[u8]) -> bool
    requires body { IsTrue (has_short_numbers body.now) }
    requires given { IsTrue (has_short_numbers given.now) }
    ensures { result ≡ begin_with (components body.now) (components given.now) }
{
    if !has_component(given) {
        return true;
    }
    let (body_rung, body_rest) = first(body);
    let (given_rung, given_rest) = first(given);
    if are_equal(body_rung, given_rung) {
        begin_with(body_rest, given_rest)
    } else {
        false
    }
}

fn are_equal(left: Rung, right: Rung) -> bool
    ensures { result
        ≡ is_eq (ordering_then (step_cmp left.step right.step) (nat_cmp left.place right.place)) }
{
    left.cmp(&right).is_eq()
}

fn same_revisions(left: Option<u64>, right: Option<u64>) -> bool
    ensures { result ≡ same_revisions left right }
{
    match (left, right) {
        (Some(left), Some(right)) => left == right,
        _ => true,
    }
}

fn near_revisions(revision: Option<u64>, given: Option<u64>) -> bool
    ensures { result ≡ near_revisions revision given }
{
    match (revision, given) {
        (_, None) => true,
        (Some(revision), Some(given)) => revision == given,
        (None, Some(_)) => false,
    }
}
