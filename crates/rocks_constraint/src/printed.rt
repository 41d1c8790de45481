ghost use Rattle.std.specs.Prelude.{◌≡◌, ◌++◌, string_bytes, OnOk};
ghost use Rattle.rocks_constraint.specs.Printed.{operator_text, constraint_text, constraints_text};

use crate::{Constraint, Operator};
use std::alloc::AllocError;

/// Writes constraints behind what a text has.
pub fn push_constraints(text: &mut String, constraints: &[Constraint]) -> Result<(), AllocError>
    ensures { OnOk result
        (string_bytes text.new ≡ string_bytes text.old ++ constraints_text constraints.now) }
{
    let Some((first, others)) = constraints.split_first() else {
        return Ok(());
    };
    push_constraint(text, first)?;
    for constraint in others {
        text.push_str(",")?;
        push_constraint(text, constraint)?;
    }
    Ok(())
}

fn push_constraint(text: &mut String, constraint: &Constraint) -> Result<(), AllocError>
    ensures { OnOk result
        (string_bytes text.new ≡ string_bytes text.old ++ constraint_text constraint.now) }
{
    text.push_str(" ")?;
    text.push_str(operator_text(constraint.operator))?;
    text.push_str(" ")?;
    text.push_str(constraint.version.as_str())?;
    Ok(())
}

fn operator_text(operator: Operator) -> &'static str
    ensures { result.now ≡ operator_text operator }
{
    match operator {
        Operator::Eq => "==",
        Operator::Ne => "~=",
        Operator::Lt => "<",
        Operator::Gt => ">",
        Operator::Le => "<=",
        Operator::Ge => ">=",
        Operator::Near => "~>",
    }
}
