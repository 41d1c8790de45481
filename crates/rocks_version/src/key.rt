ghost use Rattle.std.specs.Prelude.{◌≡◌, IfOk, string_bytes};
ghost use Rattle.rocks_version.specs.Keys.{is_before, listing_cmp, rockspec_name};

use crate::{Version, rank};
use rocks_text::Name;
use std::alloc::{AllocError, Global};
use std::cmp::Ordering;

/// One version of one package.
#[derive(Debug, PartialEq, Eq, Drop)]
pub struct RockKey {
    pub name: Name,
    pub version: Version,
}

impl RockKey {
    /// An equal key. The only error is want of memory.
    pub fn copy(&self, alloc: Global) -> Result<RockKey, AllocError>
        ensures { IfOk result (λ copied. copied ≡ self.now) }
    {
        Ok(RockKey {
            name: self.name.copy(alloc)?,
            version: self.version.copy(alloc)?,
        })
    }
}

/// Whether a rock is listed before another: names rise by their bytes, and versions of one name fall by their rank.
/// It takes no memory.
#[tactic(auto, unfolding(crate::specs::Keys::is_before))]
pub fn before(left: &RockKey, right: &RockKey) -> bool
    ensures { result ≡ is_before left.now right.now }
{
    match left.name.cmp(&right.name) {
        Ordering::Less => true,
        Ordering::Equal => rank(&left.version, &right.version).is_gt(),
        Ordering::Greater => false,
    }
}

/// How two rocks are listed, as `before` has it, to sort and to search by. It takes no memory.
#[tactic(auto, unfolding(crate::specs::Keys::listing_cmp))]
pub fn listing(left: &RockKey, right: &RockKey) -> Ordering
    ensures { result ≡ listing_cmp left.now right.now }
{
    left.name
        .cmp(&right.name)
        .then(rank(&right.version, &left.version))
}

/// The file name of a rock's rockspec, `NAME-VERSION.rockspec` (LuaRocks documentation, Rockspec format). The only
/// error is want of memory.
pub fn rockspec_name(alloc: Global, key: &RockKey) -> Result<String, AllocError>
    ensures { IfOk result (λ text. string_bytes text ≡ rockspec_name key.now.name key.now.version) }
{
    let name = key.name.as_str();
    let version = key.version.as_str();
    format!(in alloc; "{name}-{version}.rockspec")
}
