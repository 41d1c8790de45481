// The command `compare VERSION VERSION`.
ghost use Rattle.std.specs.Prelude.{◌≡◌, None, IfOk};
ghost use Rattle.rocks_session.specs.Step.{compared_text, sign_of};

use crate::{Reply, Version};
use rocks_bytes::Bytes;
use std::alloc::{AllocError, Global};
use std::cmp::Ordering;

/// Tells how two versions compare. It is never refused.
pub(crate) fn compare(alloc: Global, left: &Version, right: &Version) -> Result<Reply, AllocError>
    ensures refusal { IfOk result (λ reply. reply.refusal ≡ None) }
    ensures text { IfOk result (λ reply. reply.text ≡ compared_text left.now right.now) }
{
    let sign = sign(rocks_version::compare(left, right));
    let left = left.as_str();
    let right = right.as_str();
    let text = format!(in alloc; "{left} {sign} {right}\nok\n")?;
    Ok(Reply {
        refusal: None,
        text: Bytes::from(text.into_bytes()),
    })
}

fn sign(ordering: Ordering) -> &'static str
    ensures { result.now ≡ sign_of ordering }
{
    match ordering {
        Ordering::Less => "<",
        Ordering::Equal => "=",
        Ordering::Greater => ">",
    }
}
