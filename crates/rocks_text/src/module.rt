ghost use Rattle.std.specs.Prelude.{◌≡◌, ◌≢◌, ◌↔◌, ◌&&◌, false, IsTrue, IfOk, IsErrOf};
ghost use Rattle.std.specs.List.{list_all};
ghost use Rattle.rocks_text.specs.Modules.{is_init_file, is_init_module, is_module_byte};
ghost use Rattle.rocks_text.specs.Modules.{is_module_name, is_module_part};
ghost use Rattle.rocks_text.specs.Modules.{module_ending, module_path, slashed};
ghost use Rattle.rocks_text.specs.Texts.{is_file_path};

use crate::{FilePath, TextFault};
use std::alloc::{AllocError, Global};
use std::str;

/// Whether a text is the name of a Lua module: parts of letters, digits, `_` and `-`, joined by `.` (LuaRocks
/// documentation, rockspec format; which bytes is this project's own). It takes no memory.
pub fn is_module_name(text: &str) -> bool
    ensures { result ≡ is_module_name text.now }
{
    are_module_parts(text.as_bytes())
}

/// Where the file of a Lua module stands among the Lua modules: the parts of the module's name joined by `/`, then
/// `.lua`; a file `init.lua` stands at the parts and then `/init.lua`, unless the module's name ends in `.init`. So
/// `a.b` is `a/b/init.lua` from `src/init.lua`, and `a/b.lua` from any other file (LuaRocks documentation, rockspec
/// format, `build.modules`).
///
/// `BadPath` exactly where the module's name is none or the result is no path, unless memory runs out: then
/// `NoMemory`.
pub fn module_path(alloc: Global, name: &str, file: &FilePath) -> Result<FilePath, TextFault>
    ensures value { IfOk result (λ path. path ≡ module_path name.now file.now) }
    ensures named { IfOk result (λ _. IsTrue (is_module_name name.now)) }
    ensures bad { IsErrOf result TextFault.BadPath
        → (is_module_name name.now && is_file_path (module_path name.now file.now)) ≡ false }
    ensures no_name { result ≢ Err TextFault.BadName }
{
    if !is_module_name(name) {
        return Err(TextFault::BadPath);
    }
    let mut path = slashed(alloc, name.as_bytes())?;
    path.extend_from_slice(module_ending(name.as_bytes(), file.as_str().as_bytes()))?;
    match str::from_utf8(&path) {
        Ok(path) => FilePath::from_text(alloc, path),
        Err(_) => unreachable!(),
    }
}

fn are_module_parts(text: &[u8]) -> bool
    ensures { result ≡ is_module_name text.now }
{
    text.split(|b| *b == b'.').all(|part| is_module_part(part))
}

fn is_module_part(part: &[u8]) -> bool
    ensures { result ≡ is_module_part part.now }
{
    !part.is_empty() && are_module_bytes(part)
}

fn are_module_bytes(part: &[u8]) -> bool
    ensures { result ≡ list_all is_module_byte part.now }
{
    part.iter().all(|b| is_module_byte(*b))
}

fn is_module_byte(b: u8) -> bool
    ensures { result ≡ is_module_byte b }
{
    b.is_ascii_alphanumeric() || b == b'_' || b == b'-'
}

// The parts of a module's name joined by `/`.
fn slashed(alloc: Global, name: &[u8]) -> Result<Vec<u8>, AllocError>
    ensures { IfOk result (λ path. path.items ≡ slashed name.now) }
{
    let mut path = Vec::new(alloc);
    for b in name {
        path.push(if *b == b'.' { b'/' } else { *b })?;
    }
    Ok(path)
}

// What stands behind them.
fn module_ending(name: &[u8], file: &[u8]) -> &'static [u8]
    ensures { result.now ≡ module_ending name.now file.now }
{
    if is_init_file(file) && !name.ends_with(b".init") {
        b"/init.lua"
    } else {
        b".lua"
    }
}

fn is_init_file(file: &[u8]) -> bool
    ensures { result ≡ is_init_file file.now }
{
    file == b"init.lua".as_slice() || file.ends_with(b"/init.lua")
}
