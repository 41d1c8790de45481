//! Tests of which tables fit rows, by public calls. The tables are the globals of Lua texts.
#![tactic(auto)]

// A row of a path's parts, a shape, a format and when it has to be there.
#[cfg(test)]
macro_rules! row {
    ($path:expr, $shape:ident, $since:ident, $must:ident) => {
        schema_table::Row {
            path: &$path,
            shape: schema_table::Shape::$shape,
            since: schema_table::Format::$since,
            must: schema_table::Must::$must,
        }
    };
}

#[cfg(test)]
mod answers;
#[cfg(test)]
mod many_rows;
#[cfg(test)]
mod missing;
#[cfg(test)]
mod shapes;
#[cfg(test)]
mod visits;
