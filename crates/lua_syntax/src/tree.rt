use rocks_bytes::Bytes;
use sqlite_items::{Boxed, Items};

/// The statements of a text in order. A `;` leaves none.
#[derive(Debug, Drop)]
pub struct LuaChunk {
    pub statements: Items<Statement>,
}

/// A statement with a list of names and a list of values (Lua 5.4 manual, sections 3.3.3 and 3.3.7).
#[derive(Debug, Drop)]
pub enum Statement {
    /// `names = values`; there is at least one of each.
    Assign {
        names: Items<Named>,
        values: Items<Expr>,
    },
    /// `local names = values`, or `local names` with no value.
    Local {
        names: Items<Named>,
        values: Items<Expr>,
    },
}

/// A name and its place.
#[derive(Debug, PartialEq, Eq, Drop)]
pub struct Named {
    pub place: u32,
    pub name: Bytes,
}

/// An expression (Lua 5.4 manual, section 3.4). Its place is that of its first token, without the parentheses
/// that it stands in: those leave no node.
#[cycle(expr)]
#[derive(Debug, Drop)]
pub struct Expr {
    pub place: u32,
    pub kind: ExprKind,
}

/// What an expression is.
#[cycle(expr)]
#[derive(Debug, Drop)]
pub enum ExprKind {
    Nil,
    Bool(bool),
    /// At most 9,223,372,036,854,775,807.
    Int(u64),
    Text(Bytes),
    Name(Bytes),
    /// What is indexed, and the suffixes in order, at least one. What is indexed is itself an `Index` only where
    /// parentheses make it one.
    Index(Boxed<Expr>, Items<Suffix>),
    /// The operands of `..`, at least two, and the places of the operators, one fewer.
    Concat(Items<Expr>, Items<u32>),
    Table(Items<Field>),
}

/// `[key]`, or `.name`, whose key is a text with the name's place. The place is that of `[` or `.`.
#[cycle(expr)]
#[derive(Debug, Drop)]
pub struct Suffix {
    pub place: u32,
    pub key: Expr,
}

/// A field of a table. Its place is that of its first token.
#[cycle(expr)]
#[derive(Debug, Drop)]
pub struct Field {
    pub place: u32,
    pub key: FieldKey,
    pub value: Expr,
}

/// The key of a field: none for a positional one, else the one in brackets, or for `name =` a text with the
/// name's place.
#[cycle(expr)]
#[derive(Debug, Drop)]
pub enum FieldKey {
    Position,
    Given(Expr),
}
