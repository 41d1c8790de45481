//! Chunks printed as words, each with its place, to be compared with what is wanted.
use lua_syntax::{Expr, ExprKind, Field, FieldKey, LuaChunk, Named, Statement, Suffix};
use std::alloc::{AllocError, Global};

/// A part that is still to be printed.
#[derive(Clone, Copy)]
enum Part<'a> {
    Expr(&'a Expr),
    Suffix(&'a Suffix),
    Field(&'a Field),
    Operator(u32),
    End,
}

// ` WORD@PLACE`
fn put(alloc: Global, out: &mut Vec<u8>, word: &[u8], place: u32) -> Result<(), AllocError> {
    let number = format!(in alloc; "@{place}")?;
    out.extend_from_slice(b" ")?;
    out.extend_from_slice(word)?;
    out.extend_from_slice(number.as_bytes())
}

// ` 'TEXT'@PLACE`
fn put_text(alloc: Global, out: &mut Vec<u8>, text: &[u8], place: u32) -> Result<(), AllocError> {
    out.extend_from_slice(b" '")?;
    out.extend_from_slice(text)?;
    let number = format!(in alloc; "'@{place}")?;
    out.extend_from_slice(number.as_bytes())
}

// ` NUMBER@PLACE`
fn put_number(alloc: Global, out: &mut Vec<u8>, number: u64, place: u32) -> Result<(), AllocError> {
    let number = format!(in alloc; "{number}")?;
    put(alloc, out, number.as_bytes(), place)
}

fn leave_suffixes<'a>(left: &mut Vec<Part<'a>>, suffixes: &'a [Suffix]) -> Result<(), AllocError> {
    for suffix in suffixes.iter().rev() {
        left.push(Part::Suffix(suffix))?;
    }
    Ok(())
}

fn leave_exprs<'a>(left: &mut Vec<Part<'a>>, exprs: &'a [Expr]) -> Result<(), AllocError> {
    for expr in exprs.iter().rev() {
        left.push(Part::Expr(expr))?;
    }
    Ok(())
}

fn leave_operators<'a>(left: &mut Vec<Part<'a>>, places: &[u32]) -> Result<(), AllocError> {
    for place in places.iter().rev() {
        left.push(Part::Operator(*place))?;
    }
    Ok(())
}

fn leave_fields<'a>(left: &mut Vec<Part<'a>>, fields: &'a [Field]) -> Result<(), AllocError> {
    for field in fields.iter().rev() {
        left.push(Part::Field(field))?;
    }
    Ok(())
}

// What of an expression is still to be printed behind its word.
fn leave_parts<'a>(left: &mut Vec<Part<'a>>, kind: &'a ExprKind) -> Result<(), AllocError> {
    match kind {
        ExprKind::Index(base, suffixes) => {
            left.push(Part::End)?;
            leave_suffixes(left, suffixes.as_slice())?;
            left.push(Part::Expr(base.get()))?;
            Ok(())
        }
        ExprKind::Concat(operands, operators) => {
            left.push(Part::End)?;
            leave_operators(left, operators.as_slice())?;
            leave_exprs(left, operands.as_slice())
        }
        ExprKind::Table(fields) => {
            left.push(Part::End)?;
            leave_fields(left, fields.as_slice())
        }
        _ => Ok(()),
    }
}

// The word of an expression.
fn put_expr(alloc: Global, out: &mut Vec<u8>, expr: &Expr) -> Result<(), AllocError> {
    let place = expr.place;
    match &expr.kind {
        ExprKind::Nil => put(alloc, out, b"nil", place),
        ExprKind::Bool(true) => put(alloc, out, b"true", place),
        ExprKind::Bool(false) => put(alloc, out, b"false", place),
        ExprKind::Int(number) => put_number(alloc, out, *number, place),
        ExprKind::Text(text) => put_text(alloc, out, text.as_slice(), place),
        ExprKind::Name(name) => put(alloc, out, name.as_slice(), place),
        ExprKind::Index(_, _) => put(alloc, out, b"index", place),
        ExprKind::Concat(_, _) => put(alloc, out, b"concat", place),
        ExprKind::Table(_) => put(alloc, out, b"table", place),
    }
}

// A field: `item` and its value, or `field`, its key and its value.
fn put_field<'a>(
    alloc: Global,
    out: &mut Vec<u8>,
    left: &mut Vec<Part<'a>>,
    field: &'a Field,
) -> Result<(), AllocError> {
    left.push(Part::Expr(&field.value))?;
    match &field.key {
        FieldKey::Position => put(alloc, out, b"item", field.place),
        FieldKey::Given(key) => {
            left.push(Part::Expr(key))?;
            put(alloc, out, b"field", field.place)
        }
    }
}

fn put_part<'a>(
    alloc: Global,
    out: &mut Vec<u8>,
    left: &mut Vec<Part<'a>>,
    part: Part<'a>,
) -> Result<(), AllocError> {
    match part {
        Part::Expr(expr) => {
            put_expr(alloc, out, expr)?;
            leave_parts(left, &expr.kind)
        }
        Part::Suffix(suffix) => {
            left.push(Part::Expr(&suffix.key))?;
            put(alloc, out, b"at", suffix.place)
        }
        Part::Field(field) => put_field(alloc, out, left, field),
        Part::Operator(place) => put(alloc, out, b"by", place),
        Part::End => out.extend_from_slice(b" end"),
    }
}

// The expressions, with everything in them: at most 1,000 parts.
fn put_exprs(alloc: Global, out: &mut Vec<u8>, exprs: &[Expr]) -> Result<(), AllocError> {
    let mut left = Vec::new(alloc);
    leave_exprs(&mut left, exprs)?;
    for _ in 0..1_000 {
        match left.pop() {
            Some(part) => put_part(alloc, out, &mut left, part)?,
            None => return Ok(()),
        }
    }
    out.extend_from_slice(b" and more")
}

fn put_names(alloc: Global, out: &mut Vec<u8>, names: &[Named]) -> Result<(), AllocError> {
    for named in names {
        put(alloc, out, named.name.as_slice(), named.place)?;
    }
    Ok(())
}

// A statement: its kind, its names, a `=`, its values and a `;`.
fn put_statement(
    alloc: Global,
    out: &mut Vec<u8>,
    statement: &Statement,
) -> Result<(), AllocError> {
    let (kind, names, values) = match statement {
        Statement::Assign { names, values } => (b"assign".as_slice(), names, values),
        Statement::Local { names, values } => (b"local".as_slice(), names, values),
    };
    out.extend_from_slice(kind)?;
    put_names(alloc, out, names.as_slice())?;
    out.extend_from_slice(b" =")?;
    put_exprs(alloc, out, values.as_slice())?;
    out.extend_from_slice(b";")
}

/// The words of a chunk: those of its statements in order.
///
/// A statement is `assign` or `local`, its names, a `=`, its values and a `;`. A name is its bytes, a literal itself,
/// a text quoted. `index`, what is indexed, then `at` and a key for each suffix; `concat`, the operands, then `by` for
/// each operator; `table`, then `item` and a value or `field`, a key and a value for each field: each with an `end`.
/// Behind each word that has a place stand a `@` and the place.
pub fn printed(alloc: Global, chunk: &LuaChunk) -> Result<Vec<u8>, AllocError> {
    let mut out = Vec::new(alloc);
    for statement in chunk.statements.as_slice() {
        put_statement(alloc, &mut out, statement)?;
    }
    Ok(out)
}
