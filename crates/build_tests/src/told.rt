//! What comes of builds, in words.
use rock_build::BuildFault;
use rock_record::Rock;
use rocks_text::Kind;
use std::alloc::{AllocError, Global};

/// A rock in words: its name and version, what it needs, and each file with its bytes, in order. A fault is told by its
/// text.
pub fn told(alloc: Global, made: &Result<Rock, BuildFault>) -> Result<Vec<u8>, AllocError> {
    match made {
        Ok(rock) => rock_told(alloc, rock),
        Err(fault) => Ok(fault.text(alloc)?.into_vec()),
    }
}

fn rock_told(alloc: Global, rock: &Rock) -> Result<Vec<u8>, AllocError> {
    let mut out = Vec::new(alloc);
    push(
        &[rock.key.name.as_str(), " ", rock.key.version.as_str(), "\n"],
        &mut out,
    )?;
    for dependency in rock.dependencies.as_slice() {
        let text = dependency.text(alloc)?;
        push(&["needs ", text.as_str(), "\n"], &mut out)?;
    }
    for (item, bytes) in rock.items.as_slice() {
        push(&[kind_name(item.kind), " "], &mut out)?;
        push_file(item.path.as_str(), bytes.as_slice(), &mut out)?;
    }
    for (path, bytes) in rock.own.as_slice() {
        push(&["own "], &mut out)?;
        push_file(path.as_str(), bytes.as_slice(), &mut out)?;
    }
    Ok(out)
}

fn push(parts: &[&str], out: &mut Vec<u8>) -> Result<(), AllocError> {
    for part in parts {
        out.extend_from_slice(part.as_bytes())?;
    }
    Ok(())
}

fn push_file(path: &str, bytes: &[u8], out: &mut Vec<u8>) -> Result<(), AllocError> {
    push(&[path, " = "], out)?;
    out.extend_from_slice(bytes)?;
    push(&["\n"], out)
}

fn kind_name(kind: Kind) -> &'static str {
    match kind {
        Kind::Lua => "Lua",
        Kind::Lib => "Lib",
        Kind::Bin => "Bin",
    }
}
