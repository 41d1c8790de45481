/// The formats of rockspecs, from the oldest on (LuaRocks documentation, rockspec format).
#[derive(Debug, Clone, Copy, PartialEq, Eq, PartialOrd, Ord)]
pub enum Format {
    /// 1.0
    One,
    /// 1.1
    OneOne,
    /// 3.0
    Three,
}

/// What a value has to be (this project's own).
#[derive(Debug, Clone, Copy, PartialEq, Eq)]
pub enum Shape {
    /// A text.
    Text,
    /// A truth value.
    Bool,
    /// A list of texts: a table with the keys 1 to n, for some n from 0 on.
    Texts,
    /// A table of texts, whose keys are integers or texts.
    Mixed,
    /// A table whose keys are texts. It is gone into where rows speak of its entries.
    Named,
    /// A table that has no keys but those of rows.
    Closed,
    /// A table, in which keys without a row are let be.
    Open,
    /// A list of tables.
    Lists,
}

/// Whether something has to be there (this project's own).
#[derive(Debug, Clone, Copy, PartialEq, Eq)]
pub enum Must {
    No,
    /// In every format.
    Always,
    /// In each format before `Format::Three`.
    BeforeThree,
}

/// What holds of the paths that match one path of parts (this project's own).
#[derive(Debug, Clone, Copy)]
pub struct Row {
    /// The parts: `*` stands for any key, and another part for the text key of its bytes.
    pub path: &'static [&'static str],
    pub shape: Shape,
    /// The first format in which the path may be there.
    pub since: Format,
    /// Whether the path has to be there wherever the table above it is.
    pub must: Must,
}
