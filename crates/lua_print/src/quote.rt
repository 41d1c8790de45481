ghost use Rattle.std.specs.Prelude.{◌≡◌, ◌++◌, OnOk, flat_map};
ghost use Rattle.lua_print.specs.Quoted.{quoted, escaped};

use std::alloc::AllocError;

/// Appends a text between quotes, with escapes (Lua 5.4 manual, section 3.1). The only error is want
/// of memory, and some of the text may be there then.
pub fn print_quoted(text: &[u8], out: &mut Vec<u8>) -> Result<(), AllocError>
    ensures { OnOk result (out.new.items ≡ out.old.items ++ quoted text.now) }
{
    out.extend_from_slice(b"\"")?;
    print_escapes(text, out)?;
    out.extend_from_slice(b"\"")
}

/// Appends a text with its escapes and no quotes. The only error is want of memory, and some of the text may be there
/// then.
pub fn print_escapes(text: &[u8], out: &mut Vec<u8>) -> Result<(), AllocError>
    ensures { OnOk result (out.new.items ≡ out.old.items ++ flat_map escaped text.now) }
{
    for byte in text {
        print_escaped(*byte, out)?;
    }
    Ok(())
}

fn print_escaped(byte: u8, out: &mut Vec<u8>) -> Result<(), AllocError>
    ensures { OnOk result (out.new.items ≡ out.old.items ++ escaped byte) }
{
    if byte == b'"' || byte == b'\\' {
        return out.extend_from_slice(&[b'\\', byte]);
    }
    if byte == b'\n' {
        return out.extend_from_slice(b"\\n");
    }
    if byte < 32 || byte == 127 {
        let digits = [b'0' + byte / 100, b'0' + byte / 10 % 10, b'0' + byte % 10];
        return out.extend_from_slice(&[b'\\', digits[0], digits[1], digits[2]]);
    }
    out.extend_from_slice(&[byte])
}
