//! What a Lua text comes to.
use lua_eval::EvalFault;
use lua_print::print;
use lua_text::{EvalFailed, globals};
use std::alloc::{AllocError, Global};

/// What is printed of the globals of a text. None where it has a fault.
pub fn printed(alloc: Global, text: &[u8]) -> Result<Option<Vec<u8>>, AllocError> {
    let mut out = Vec::new(alloc);
    match globals(alloc, text)? {
        Ok(table) => print(alloc, &table, &mut out)?,
        Err(_) => return Ok(None),
    }
    Ok(Some(out))
}

/// The fault of the chunk of a text. None where the text has globals, or no chunk.
pub fn fault_of(alloc: Global, text: &[u8]) -> Result<Option<EvalFault>, AllocError> {
    match globals(alloc, text)? {
        Err(EvalFailed::Eval(fault)) => Ok(Some(fault)),
        _ => Ok(None),
    }
}

/// Whether the text has globals.
pub fn has_globals(alloc: Global, text: &[u8]) -> Result<bool, AllocError> {
    Ok(globals(alloc, text)?.is_ok())
}
