ghost use Rattle.std.specs.Prelude.{◌≡◌, ◌-◌, ◌^◌};
ghost use Rattle.std.specs.List.Sorted.{IsSearchInRange};
ghost use Rattle.chunked_list.specs.Parts.{moved};

/// A place of a list in parts: one of the parts, and a place in it.
#[derive(Clone, Copy, Debug)]
pub struct Place {
    pub part: usize,
    pub at: usize,
}

/// What a search within a part has found, told of the whole, in which so many items stand before the part.
pub fn moved(found: Result<usize, usize>, before: usize) -> Result<usize, usize>
    requires { IsSearchInRange found (2 ^ 64 - 1 - before) }
    ensures { result ≡ moved found before }
{
    match found {
        Ok(at) => Ok(before + at),
        Err(at) => Err(before + at),
    }
}
