//! Laws of dependencies and of what meets them, as contracts of functions that do nothing.
ghost use Rattle.std.specs.Prelude.{◌≡◌, ℕ, ◌≤◌, ◌&&◌, ◌||◌, false, not, length, List, IsTrue};
ghost use Rattle.std.specs.List.{list_all};
ghost use Rattle.rocks_text.specs.Texts.{is_name};
ghost use Rattle.rocks_version.specs.Components.{components};
ghost use Rattle.rocks_version.specs.Texts.{body, is_version, revision};
ghost use Rattle.rocks_constraint.specs.Faults.{HasFault};
ghost use Rattle.rocks_constraint.specs.Grammar.{IsDependency, IsRead};
ghost use Rattle.rocks_constraint.specs.Meets.{holds, meets_all};
ghost use Rattle.rocks_constraint.specs.Printed.{printed};
ghost use Rattle.rocks_constraint.specs.declared.constraint.Constraint.{Constraint};
ghost use Rattle.rocks_constraint.specs.declared.fault.DependencyFault.{DependencyFault};

use crate::Operator;
use crate::constraint::{LONGEST, MOST_CONSTRAINTS};

/// Whether a version meets constraints depends on its components and its revision alone.
pub fn meets_by_components()
    ensures { (left right : List ℕ) (constraints : List Constraint)
        → components (body left) ≡ components (body right) → revision left ≡ revision right
        → meets_all left constraints ≡ meets_all right constraints }
{}

/// No version is both below and above another; `<=` is `<` or neither, and `>=` is `>` or neither.
pub fn comparisons_exclude()
    ensures exclusive { (version given : List ℕ)
        → (holds Operator.Lt version given && holds Operator.Gt version given) ≡ false }
    ensures at_most { (version given : List ℕ) → holds Operator.Le version given
        ≡ (holds Operator.Lt version given
        || not (holds Operator.Lt version given || holds Operator.Gt version given)) }
    ensures at_least { (version given : List ℕ) → holds Operator.Ge version given
        ≡ (holds Operator.Gt version given
        || not (holds Operator.Lt version given || holds Operator.Gt version given)) }
{}

/// A text is one dependency at most, of whatever length.
pub fn one_dependency()
    ensures limited { (text name other : List ℕ) (constraints others : List Constraint)
        → IsDependency text name constraints → IsDependency text other others
        → (name ≡ other) × (constraints ≡ others) }
    ensures unlimited { (text name other : List ℕ) (constraints others : List Constraint)
        → IsRead text name constraints → IsRead text other others
        → (name ≡ other) × (constraints ≡ others) }
{}

/// What is written for a name and constraints is read back as them: within the limit where it is short enough, and
/// without it always.
pub fn written_is_read()
    ensures unlimited { (name : List ℕ) (constraints : List Constraint) → IsTrue (is_name name)
        → IsTrue (list_all (λ c. is_version c.version) constraints)
        → length constraints ≤ MOST_CONSTRAINTS
        → IsRead (printed name constraints) name constraints }
    ensures limited { (name : List ℕ) (constraints : List Constraint) → IsTrue (is_name name)
        → IsTrue (list_all (λ c. is_version c.version) constraints)
        → length constraints ≤ MOST_CONSTRAINTS
        → length (printed name constraints) ≤ LONGEST
        → IsDependency (printed name constraints) name constraints }
{}

/// A text that is a dependency has no fault.
pub fn dependency_without_fault()
    ensures { (text name : List ℕ) (constraints : List Constraint) (fault : DependencyFault)
        → IsDependency text name constraints → HasFault text fault → ⊥ }
{}

/// A text has one fault at most.
pub fn one_fault()
    ensures { (text : List ℕ) (fault other : DependencyFault) → HasFault text fault
        → HasFault text other → fault ≡ other }
{}
