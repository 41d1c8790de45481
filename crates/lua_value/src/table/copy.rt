ghost use Rattle.std.specs.Prelude.{◌≡◌, IfOk};

use super::{Table, Value};
use crate::key::Key;
use chunked_list::ChunkedList;
use std::alloc::{AllocError, Global};

impl Table {
    /// An equal table. The only error is want of memory.
    #[cycle(copy)]
    pub fn copy(&self, alloc: Global) -> Result<Table, AllocError>
        ensures { IfOk result (λ copied. copied ≡ self.now) }
    {
        let mut entries = ChunkedList::new(alloc);
        for at in 0..self.entries.len() {
            entries.push(copy_entry(alloc, self.entries.item(at))?)?;
        }
        Ok(Table { entries })
    }
}

impl Value {
    /// An equal value. The only error is want of memory.
    #[cycle(copy)]
    pub fn copy(&self, alloc: Global) -> Result<Value, AllocError>
        ensures { IfOk result (λ copied. copied ≡ self.now) }
    {
        match self {
            Value::Nil => Ok(Value::Nil),
            Value::Bool(truth) => Ok(Value::Bool(*truth)),
            Value::Int(number) => Ok(Value::Int(*number)),
            Value::Text(bytes) => Ok(Value::Text(bytes.copy(alloc)?)),
            Value::Table(table) => Ok(Value::Table(table.copy(alloc)?)),
        }
    }
}

#[cycle(copy)]
pub fn copy_entry(alloc: Global, entry: &(Key, Value)) -> Result<(Key, Value), AllocError>
    ensures { IfOk result (λ copied. copied ≡ entry.now) }
{
    Ok((entry.0.copy(alloc)?, entry.1.copy(alloc)?))
}
