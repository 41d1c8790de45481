ghost use Rattle.std.specs.Prelude.{◌≡◌, ◌<◌, ◌≤◌, insert, length};
ghost use Rattle.std.specs.Vec.{vec_len, vec_capacity};

/// Puts an item into a vector that has room for it, which takes no memory.
pub fn put_in_room<T: Drop>(list: &mut Vec<T>, at: usize, item: T)
    requires within { at ≤ length list.old.items }
    requires room { vec_len list.old < vec_capacity list.old }
    ensures { list.new.items ≡ insert list.old.items at item }
{
    if list.insert(at, item).is_err() {
        unreachable!();
    }
}
