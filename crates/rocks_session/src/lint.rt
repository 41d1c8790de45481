// The command `lint NAME VERSION`.
ghost use Rattle.std.specs.Prelude.{◌≡◌, List, None, IfOk};
ghost use Rattle.rock_record.specs.declared.rock.Rock.{Rock};
ghost use Rattle.rocks_session.specs.Execute.{IsModels, outcome_of};
ghost use Rattle.rocks_session.specs.Asking.{AsksShelf};
ghost use Rattle.rocks_session.specs.Step.{format_text, linted_text, planned};

use crate::{BuildFailed, Command, Refusal, Reply, RockKey, SessionFault};
use build_plan::BuildPlan;
use rocks_bytes::Bytes;
use rocks_outside::Shelf;
use rocks_reply::refused;
use rockspec::Format;
use served_rocks::{Origin, Served, Unserved, find_rockspec};
use std::alloc::{AllocError, Global};

/// Reads the rockspec of a rock on the earliest server that has it, and tells its format, or why it is no rockspec of
/// the rock that can be built.
pub(crate) fn lint<F: Shelf>(
    alloc: Global,
    shelf: &mut F,
    key: &RockKey,
) -> Result<Reply, SessionFault>
    ensures answer { IfOk result (λ reply. (set : List Rock)
        → IsModels (Command.Lint key.now) set (F.state shelf.old).holds (outcome_of set reply)) }
    ensures asks { AsksShelf result (F.state shelf.old) (F.state shelf.new) }
{
    match find_rockspec(alloc, shelf, key, Origin::Sources) {
        Ok(served) => Ok(tell(alloc, key, served)?),
        Err(Unserved::Refused(refusal)) => Ok(refused(alloc, refusal)?),
        Err(Unserved::Failed(error)) => Err(SessionFault::from(error)),
    }
}

fn tell(alloc: Global, key: &RockKey, served: Served) -> Result<Reply, AllocError>
    ensures { IfOk result (λ reply. (set : List Rock)
        → outcome_of set reply ≡ planned set key.now served.spec.format served.spec.plan) }
{
    let spec = served.spec;
    tell_plan(alloc, key, spec.format, spec.plan)
}

fn tell_plan(
    alloc: Global,
    key: &RockKey,
    format: Format,
    plan: BuildPlan,
) -> Result<Reply, AllocError>
    ensures { IfOk result (λ reply. (set : List Rock)
        → outcome_of set reply ≡ planned set key.now format plan) }
{
    match plan {
        BuildPlan::Build(_recipe) => fine(alloc, key, format),
        BuildPlan::Refused(fault) => refused(
            alloc,
            Refusal::Build {
                key: key.copy(alloc)?,
                fault: BuildFailed::Plan(fault),
            },
        ),
    }
}

fn fine(alloc: Global, key: &RockKey, format: Format) -> Result<Reply, AllocError>
    ensures refusal { IfOk result (λ reply. reply.refusal ≡ None) }
    ensures text { IfOk result (λ reply. reply.text ≡ linted_text key.now format) }
{
    let name = key.name.as_str();
    let version = key.version.as_str();
    let format = format_text(format);
    let text = format!(in alloc; "{name} {version} {format}\nok\n")?;
    Ok(Reply {
        refusal: None,
        text: Bytes::from(text.into_bytes()),
    })
}

fn format_text(format: Format) -> &'static str
    ensures { result.now ≡ format_text format }
{
    match format {
        Format::One => "1.0",
        Format::OneOne => "1.1",
        Format::Three => "3.0",
    }
}
