ghost use Rattle.std.specs.Prelude.{◌≡◌, ◌+◌, ◌^◌, ◌<◌, ◌≤◌, [], ◌∷◌, ◌++◌, length, slice_get, slice_set, insert, IfSome, OnOk, OnErr, Some};
ghost use Rattle.std.specs.declared.cmp.Ordering.{Ordering};
ghost use Rattle.std.specs.Fn.{ComputesKey};
ghost use Rattle.std.specs.List.Sorted.{IsBinarySearchResult, IsSearchInRange};
ghost use Rattle.chunked_list.specs.Items.{block_items, items, IsBlock, IsChunked};
ghost use Rattle.chunked_list.specs.Parts.{before, IsPlace};

use crate::block::{Block, CHUNKS};
use crate::place::{Place, moved};
use crate::room::put_in_room;
use std::alloc::{AllocError, Global};
use std::cmp::Ordering;

/// A list that grows at any place, and that contracts see as the list of its items. They lie in chunks
/// and these in blocks, so that an item that is put in moves few others, and a place is found by few
/// steps (this project's own). Items that come at the end fill chunk after chunk.
#[derive(Debug, Drop)]
pub struct ChunkedList<T> {
    alloc: Global,
    blocks: Vec<Block<T>>,
    len: usize,
}

impl<T> ChunkedList<T> {
    /// The empty list. It takes no memory.
    pub fn new(alloc: Global) -> ChunkedList<T>
        ensures whole { IsChunked result }
        ensures empty { items result ≡ [] }
    {
        ChunkedList {
            alloc,
            blocks: Vec::new(alloc),
            len: 0,
        }
    }

    pub fn len(&self) -> usize
        requires { IsChunked self.now }
        ensures { result ≡ length (items self.now) }
    {
        self.len
    }

    /// The item at the place.
    pub fn item(&self, at: usize) -> &T
        requires whole { IsChunked self.now }
        requires within { at < length (items self.now) }
        ensures { slice_get (items self.now) at ≡ Some result.now }
    {
        let place = self.place_of(at);
        self.blocks[place.part].item(place.at)
    }

    // The block in which a place lies.
    fn place_of(&self, at: usize) -> Place
        requires whole { IsChunked self.now }
        requires within { at < length (items self.now) }
        ensures { IsPlace block_items self.now.blocks.items at result.part result.at }
    {
        let mut block = 0;
        let mut left = at;
        while left >= self.blocks[block].len() {
            left -= self.blocks[block].len();
            block += 1;
        }
        Place {
            part: block,
            at: left,
        }
    }

    /// A place whose item the order finds equal, or else the place where such an item would go, if the
    /// order's answers rise along the list.
    pub fn binary_search_by<F: FnMut(&T) -> Ordering>(&self, mut order: F) -> Result<usize, usize>
        requires whole { IsChunked self.now }
        requires callable { F.IsAlwaysCallable order }
        ensures bound { IsSearchInRange result (length (items self.now)) }
        ensures position { (by : T → Ordering) → ComputesKey F.FnMut by order
            → IsBinarySearchResult by (items self.now) result }
    {
        let end = self.blocks.len();
        if end == 0 {
            return Err(0);
        }
        // Items that rise go behind the last one, and no search is needed for them.
        if order(self.blocks[end - 1].last()).is_lt() {
            return Err(self.len);
        }
        self.search(order)
    }

    // The same of a list with items.
    fn search<F: FnMut(&T) -> Ordering>(&self, mut order: F) -> Result<usize, usize>
        requires whole { IsChunked self.now }
        requires some { 0 < length self.now.blocks.items }
        requires callable { F.IsAlwaysCallable order }
        ensures bound { IsSearchInRange result (length (items self.now)) }
        ensures position { (by : T → Ordering) → ComputesKey F.FnMut by order
            → IsBinarySearchResult by (items self.now) result }
    {
        let mut low = 0;
        let mut high = self.blocks.len();
        while high - low > 1 {
            let middle = low + (high - low) / 2;
            if order(self.blocks[middle].item(0)).is_gt() {
                high = middle;
            } else {
                low = middle;
            }
        }
        let before = self.before(low);
        moved(self.blocks[low].binary_search_by(order), before)
    }

    // How many items stand before a block.
    fn before(&self, block: usize) -> usize
        requires whole { IsChunked self.now }
        requires within { block ≤ length self.now.blocks.items }
        ensures { result ≡ before block_items self.now.blocks.items block }
    {
        let mut before = 0;
        for at in 0..block {
            before += self.blocks[at].len();
        }
        before
    }
}

impl<T: Drop> ChunkedList<T> {
    /// Puts the item before the one that stands at the place, or behind all.
    /// The only error is want of memory, and it leaves the items as they were.
    pub fn insert(&mut self, at: usize, item: T) -> Result<(), AllocError>
        requires whole { IsChunked self.old }
        requires within { at ≤ length (items self.old) }
        ensures whole { IsChunked self.new }
        ensures ok { OnOk result (items self.new ≡ insert (items self.old) at item) }
        ensures err { OnErr result (items self.new ≡ items self.old) }
    {
        if at == self.len {
            return self.push(item);
        }
        if self.len == usize::MAX {
            return Err(AllocError);
        }
        let place = self.place_of(at);
        if !self.blocks[place.part].is_full() {
            return self.insert_into(at, place, item);
        }
        self.cut(place.part)?;
        let place = self.place_of(at);
        self.insert_into(at, place, item)
    }

    /// Puts the item behind all others.
    /// The only error is want of memory, and it leaves the items as they were.
    pub fn push(&mut self, item: T) -> Result<(), AllocError>
        requires whole { IsChunked self.old }
        ensures whole { IsChunked self.new }
        ensures ok { OnOk result (items self.new ≡ items self.old ++ item ∷ []) }
        ensures err { OnErr result (items self.new ≡ items self.old) }
    {
        if self.len == usize::MAX {
            return Err(AllocError);
        }
        let end = self.blocks.len();
        if end == 0 || self.blocks[end - 1].is_full() {
            return self.begin(item);
        }
        let last = &mut self.blocks[end - 1];
        last.push(self.alloc, item)?;
        self.len += 1;
        Ok(())
    }

    /// Puts the item in place of the one that stands there, and answers that one.
    pub fn replace(&mut self, at: usize, item: T) -> T
        requires whole { IsChunked self.old }
        requires within { at < length (items self.old) }
        ensures whole { IsChunked self.new }
        ensures was { slice_get (items self.old) at ≡ Some result }
        ensures now { items self.new ≡ slice_set (items self.old) at item }
    {
        let place = self.place_of(at);
        let block = &mut self.blocks[place.part];
        block.replace(place.at, item)
    }

    // Begins a block behind the others.
    fn begin(&mut self, item: T) -> Result<(), AllocError>
        requires whole { IsChunked self.old }
        requires room { length (items self.old) + 1 < 2 ^ 64 }
        ensures whole { IsChunked self.new }
        ensures ok { OnOk result (items self.new ≡ items self.old ++ item ∷ []) }
        ensures err { OnErr result (items self.new ≡ items self.old) }
    {
        let block = Block::of_one(self.alloc, item)?;
        self.blocks.push(block)?;
        self.len += 1;
        Ok(())
    }

    // Puts the item into a block.
    fn insert_into(&mut self, at: usize, place: Place, item: T) -> Result<(), AllocError>
        requires whole { IsChunked self.old }
        requires place { IsPlace block_items self.old.blocks.items at place.part place.at }
        requires room { length (items self.old) + 1 < 2 ^ 64 }
        ensures whole { IsChunked self.new }
        ensures ok { OnOk result (items self.new ≡ insert (items self.old) at item) }
        ensures err { OnErr result (items self.new ≡ items self.old) }
    {
        let block = &mut self.blocks[place.part];
        block.insert(place.at, item)?;
        self.len += 1;
        Ok(())
    }

    // Makes two blocks of one.
    fn cut(&mut self, block: usize) -> Result<(), AllocError>
        requires whole { IsChunked self.old }
        requires is_block { block < length self.old.blocks.items }
        requires full { IfSome (slice_get self.old.blocks.items block)
            (λ found. CHUNKS ≤ length found.chunks.items) }
        ensures whole { IsChunked self.new }
        ensures items { items self.new ≡ items self.old }
    {
        self.blocks.reserve(1)?;
        let low = &mut self.blocks[block];
        let high = low.split_off()?;
        put_in_room(&mut self.blocks, block + 1, high);
        Ok(())
    }
}
