// Which texts may be the key of an entry.
ghost use Rattle.std.specs.Prelude.{◌≡◌, IfOk};
ghost use Rattle.rocks_text.specs.Modules.{is_module_name};
ghost use Rattle.build_targets.specs.Meanings.{is_good_key};

use crate::meanings::Listing;
use crate::paths::path;
use std::alloc::{AllocError, Global};
use std::str;

// Whether the key has the form that its list asks for. The only error is want of memory.
pub(crate) fn is_good_key(alloc: Global, listing: Listing, key: &[u8]) -> Result<bool, AllocError>
    ensures { IfOk result (λ good. good ≡ is_good_key listing key.now) }
{
    match listing {
        Listing::Modules | Listing::Lua | Listing::Lib => Ok(is_module_name(key)),
        Listing::Bin | Listing::Conf => Ok(path(alloc, key)?.is_some()),
    }
}

fn is_module_name(key: &[u8]) -> bool
    ensures { result ≡ is_module_name key.now }
{
    match str::from_utf8(key) {
        Ok(name) => rocks_text::is_module_name(name),
        Err(_) => false,
    }
}
