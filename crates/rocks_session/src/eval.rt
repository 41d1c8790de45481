// The command `eval PATH`.
ghost use Rattle.std.specs.Prelude.{◌≡◌, ◌++◌, List, None, IfOk, codes};
ghost use Rattle.lua_print.specs.Printed.{HasNames, globals_text};
ghost use Rattle.lua_value.specs.Ordered.{IsOrdered};
ghost use Rattle.rock_record.specs.declared.rock.Rock.{Rock};
ghost use Rattle.rocks_session.specs.Execute.{IsModels, outcome_of};
ghost use Rattle.rocks_session.specs.Evaluated.{Tells};
ghost use Rattle.rocks_session.specs.Asking.{AsksShelf};
ghost use Rattle.rocks_session.specs.Step.{too_long};

use crate::{Command, EvalFailed, Refusal, Reply, SessionFault};
use lua_lexer::LexFault;
use lua_print::print;
use lua_text::globals;
use lua_value::Table;
use rocks_bytes::Bytes;
use rocks_outside::Shelf;
use rocks_reply::refused;
use rocks_text::FilePath;
use served_rocks::{Found, find};
use std::alloc::{AllocError, Global};

/// The longest Lua text, in bytes.
const LONGEST_TEXT: u32 = 8_388_608;

/// Reads the Lua text at a path of the earliest server that has it, and tells its globals.
pub(crate) fn eval<F: Shelf>(
    alloc: Global,
    shelf: &mut F,
    path: &FilePath,
) -> Result<Reply, SessionFault>
    ensures answer { IfOk result (λ reply. (set : List Rock)
        → IsModels (Command.Eval path.now) set (F.state shelf.old).holds (outcome_of set reply)) }
    ensures asks { AsksShelf result (F.state shelf.old) (F.state shelf.new) }
{
    match find(alloc, shelf, path, LONGEST_TEXT)? {
        Found::Nowhere => Ok(refused(
            alloc,
            Refusal::NoFile {
                path: path.copy(alloc)?,
            },
        )?),
        Found::TooLong => Ok(refused(alloc, too_long())?),
        Found::At(_, text) => Ok(evaluate(alloc, text.as_slice())?),
    }
}

fn too_long() -> Refusal
    ensures { result ≡ too_long }
{
    Refusal::Lua {
        fault: EvalFailed::Lex(LexFault::TooLong {
            length: u64::from(LONGEST_TEXT) + 1,
        }),
    }
}

fn evaluate(alloc: Global, text: &[u8]) -> Result<Reply, AllocError>
    ensures { IfOk result (Tells text.now) }
{
    match globals(alloc, text)? {
        Ok(globals) => tell(alloc, &globals),
        Err(fault) => refused(alloc, Refusal::Lua { fault }),
    }
}

fn tell(alloc: Global, globals: &Table) -> Result<Reply, AllocError>
    requires ordered { IsOrdered globals.now }
    requires named { HasNames globals.now }
    ensures refusal { IfOk result (λ reply. reply.refusal ≡ None) }
    ensures text { IfOk result (λ reply.
        reply.text ≡ globals_text globals.now ++ codes "ok\n") }
{
    let mut text = Vec::new(alloc);
    print(alloc, globals, &mut text)?;
    text.extend_from_slice(b"ok\n")?;
    Ok(Reply {
        refusal: None,
        text: Bytes::from(text),
    })
}
