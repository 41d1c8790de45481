ghost use Rattle.std.specs.Prelude.{◌≡◌, ◌+◌, ◌-◌, ◌^◌, ◌<◌, ◌≤◌, ◌↔◌, [], ◌∷◌, ◌++◌, length, take, slice_get, slice_set, insert, sum_by, IsTrue, IfOk, OnOk, OnErr, Some};
ghost use Rattle.std.specs.Vec.{vec_len};
ghost use Rattle.std.specs.declared.cmp.Ordering.{Ordering};
ghost use Rattle.std.specs.Fn.{ComputesKey};
ghost use Rattle.std.specs.List.Sorted.{IsBinarySearchResult, IsSearchInRange};
ghost use Rattle.chunked_list.specs.Items.{chunk_items, block_items, IsBlock};
ghost use Rattle.chunked_list.specs.Parts.{size, before, IsPlace};

use crate::place::{Place, moved};
use crate::room::put_in_room;
use std::alloc::{AllocError, Global};
use std::cmp::Ordering;
use std::mem;

/// How many items a chunk has before it is cut in two.
const FULL: usize = 32;

/// How many chunks a block has before it is cut in two.
pub const CHUNKS: usize = 256;

/// Some items of a list, in chunks, so that an item that is put in moves few others.
#[derive(Debug, Drop)]
pub struct Block<T> {
    // There is one, and none of them is empty.
    chunks: Vec<Vec<T>>,
    len: usize,
}

impl<T> Block<T> {
    pub fn len(&self) -> usize
        requires { IsBlock self.now }
        ensures { result ≡ length (block_items self.now) }
    {
        self.len
    }

    /// Whether the block is to be cut before it takes a further item.
    pub fn is_full(&self) -> bool
        ensures { IsTrue result ↔ (CHUNKS ≤ length self.now.chunks.items) }
    {
        self.chunks.len() >= CHUNKS
    }

    /// The item at the place.
    pub fn item(&self, at: usize) -> &T
        requires whole { IsBlock self.now }
        requires within { at < length (block_items self.now) }
        ensures { slice_get (block_items self.now) at ≡ Some result.now }
    {
        let place = self.place_of(at);
        let chunk = &self.chunks[place.part];
        &chunk[place.at]
    }

    /// The last item.
    pub fn last(&self) -> &T
        requires { IsBlock self.now }
        ensures some { 0 < length (block_items self.now) }
        ensures last { slice_get (block_items self.now) (length (block_items self.now) - 1)
            ≡ Some result.now }
    {
        let chunk = &self.chunks[self.chunks.len() - 1];
        &chunk[chunk.len() - 1]
    }

    // The chunk in which a place lies.
    fn place_of(&self, at: usize) -> Place
        requires { at < length (block_items self.now) }
        ensures { IsPlace chunk_items self.now.chunks.items at result.part result.at }
    {
        let mut chunk = 0;
        let mut left = at;
        while left >= self.chunks[chunk].len() {
            left -= self.chunks[chunk].len();
            chunk += 1;
        }
        Place {
            part: chunk,
            at: left,
        }
    }

    /// A place whose item the order finds equal, or else the place where such an item would go, if the
    /// order's answers rise along the block.
    pub fn binary_search_by<F: FnMut(&T) -> Ordering>(&self, mut order: F) -> Result<usize, usize>
        requires whole { IsBlock self.now }
        requires callable { F.IsAlwaysCallable order }
        ensures bound { IsSearchInRange result (length (block_items self.now)) }
        ensures position { (by : T → Ordering) → ComputesKey F.FnMut by order
            → IsBinarySearchResult by (block_items self.now) result }
    {
        let mut low = 0;
        let mut high = self.chunks.len();
        while high - low > 1 {
            let middle = low + (high - low) / 2;
            if order(&self.chunks[middle][0]).is_gt() {
                high = middle;
            } else {
                low = middle;
            }
        }
        let before = total_len(&self.chunks[..low]);
        moved(self.chunks[low].binary_search_by(order), before)
    }
}

impl<T: Drop> Block<T> {
    /// A block of one item. The only error is want of memory.
    pub fn of_one(alloc: Global, item: T) -> Result<Block<T>, AllocError>
        ensures whole { IfOk result (λ block. IsBlock block) }
        ensures items { IfOk result (λ block. block_items block ≡ item ∷ []) }
    {
        let mut chunks = Vec::new(alloc);
        chunks.push(chunk_of_one(alloc, item)?)?;
        Ok(Block { chunks, len: 1 })
    }

    /// Puts the item behind all others.
    /// The only error is want of memory, and it leaves the items as they were.
    pub fn push(&mut self, alloc: Global, item: T) -> Result<(), AllocError>
        requires whole { IsBlock self.old }
        requires room { length (block_items self.old) + 1 < 2 ^ 64 }
        ensures whole { IsBlock self.new }
        ensures ok { OnOk result (block_items self.new ≡ block_items self.old ++ item ∷ []) }
        ensures err { OnErr result (block_items self.new ≡ block_items self.old) }
    {
        let last = self.chunks.len() - 1;
        if self.chunks[last].len() >= FULL {
            return self.begin(alloc, item);
        }
        let chunk = &mut self.chunks[last];
        chunk.push(item)?;
        self.len += 1;
        Ok(())
    }

    // Begins a chunk behind the others.
    fn begin(&mut self, alloc: Global, item: T) -> Result<(), AllocError>
        requires whole { IsBlock self.old }
        requires room { length (block_items self.old) + 1 < 2 ^ 64 }
        ensures whole { IsBlock self.new }
        ensures ok { OnOk result (block_items self.new ≡ block_items self.old ++ item ∷ []) }
        ensures err { OnErr result (block_items self.new ≡ block_items self.old) }
    {
        let chunk = chunk_of_one(alloc, item)?;
        self.chunks.push(chunk)?;
        self.len += 1;
        Ok(())
    }

    /// Puts the item before the one that stands at the place.
    /// The only error is want of memory, and it leaves the items as they were.
    pub fn insert(&mut self, at: usize, item: T) -> Result<(), AllocError>
        requires whole { IsBlock self.old }
        requires within { at < length (block_items self.old) }
        requires room { length (block_items self.old) + 1 < 2 ^ 64 }
        ensures whole { IsBlock self.new }
        ensures ok { OnOk result (block_items self.new ≡ insert (block_items self.old) at item) }
        ensures err { OnErr result (block_items self.new ≡ block_items self.old) }
    {
        let place = self.place_of(at);
        if self.chunks[place.part].len() < FULL {
            return self.insert_into(at, place, item);
        }
        self.cut(place.part)?;
        let place = self.place_of(at);
        self.insert_into(at, place, item)
    }

    // Puts the item into a chunk.
    fn insert_into(&mut self, at: usize, place: Place, item: T) -> Result<(), AllocError>
        requires whole { IsBlock self.old }
        requires place { IsPlace chunk_items self.old.chunks.items at place.part place.at }
        requires room { length (block_items self.old) + 1 < 2 ^ 64 }
        ensures whole { IsBlock self.new }
        ensures ok { OnOk result (block_items self.new ≡ insert (block_items self.old) at item) }
        ensures err { OnErr result (block_items self.new ≡ block_items self.old) }
    {
        let chunk = &mut self.chunks[place.part];
        chunk.insert(place.at, item)?;
        self.len += 1;
        Ok(())
    }

    // Makes two chunks of one.
    fn cut(&mut self, chunk: usize) -> Result<(), AllocError>
        requires whole { IsBlock self.old }
        requires is_chunk { chunk < length self.old.chunks.items }
        requires full { FULL ≤ size chunk_items self.old.chunks.items chunk }
        ensures whole { IsBlock self.new }
        ensures items { block_items self.new ≡ block_items self.old }
    {
        self.chunks.reserve(1)?;
        let low = &mut self.chunks[chunk];
        let high = low.split_off(FULL / 2)?;
        put_in_room(&mut self.chunks, chunk + 1, high);
        Ok(())
    }

    /// Cuts the block in two, and answers the upper one.
    /// The only error is want of memory, and it leaves the items as they were.
    pub fn split_off(&mut self) -> Result<Block<T>, AllocError>
        requires whole { IsBlock self.old }
        requires full { CHUNKS ≤ length self.old.chunks.items }
        ensures whole { IsBlock self.new }
        ensures upper_whole { IfOk result (λ upper. IsBlock upper) }
        ensures ok { IfOk result
            (λ upper. block_items self.old ≡ block_items self.new ++ block_items upper) }
        ensures err { OnErr result (block_items self.new ≡ block_items self.old) }
    {
        let whole = self.len;
        let chunks = self.chunks.split_off(CHUNKS / 2)?;
        self.len = total_len(&self.chunks);
        Ok(Block {
            chunks,
            len: whole - self.len,
        })
    }

    /// Puts the item in place of the one that stands there, and answers that one.
    pub fn replace(&mut self, at: usize, item: T) -> T
        requires whole { IsBlock self.old }
        requires within { at < length (block_items self.old) }
        ensures whole { IsBlock self.new }
        ensures was { slice_get (block_items self.old) at ≡ Some result }
        ensures now { block_items self.new ≡ slice_set (block_items self.old) at item }
    {
        let place = self.place_of(at);
        let chunk = &mut self.chunks[place.part];
        mem::replace(&mut chunk[place.at], item)
    }
}

fn chunk_of_one<T: Drop>(alloc: Global, item: T) -> Result<Vec<T>, AllocError>
    ensures { IfOk result (λ chunk. chunk.items ≡ item ∷ []) }
{
    let mut chunk = Vec::new(alloc);
    chunk.push(item)?;
    Ok(chunk)
}

// How many items the chunks have.
fn total_len<T>(chunks: &[Vec<T>]) -> usize
    requires { sum_by (λ chunk. vec_len chunk) chunks.now < 2 ^ 64 }
    ensures { result ≡ sum_by (λ chunk. vec_len chunk) chunks.now }
{
    chunks.iter().map(|chunk| chunk.len()).sum()
}
