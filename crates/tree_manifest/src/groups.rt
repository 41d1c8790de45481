// The lines of a manifest, gathered by the tables that they stand in.
ghost use Rattle.std.specs.Prelude.{◌≡◌, ◌≤◌, ◌++◌, ◌∷◌, ◌==◌, [], length, IfOk, OnOk};
ghost use Rattle.std.specs.List.{prefix_len};
ghost use Rattle.tree_manifest.specs.Reading.{groups_under, with_inner, with_line, with_text};

use rocks_bytes::Bytes;
use sqlite_items::Items;
use std::alloc::{AllocError, Global};

/// A line that opens a table, and the lines with texts in it, all without the blanks before them.
#[derive(Debug, Drop)]
pub struct Group {
    /// The line that opens the table around this one, where one within a global does.
    pub outer: Bytes,
    pub head: Bytes,
    pub texts: Items<Bytes>,
}

/// How many blanks stand before what is gathered.
#[derive(Clone, Copy, Debug, PartialEq, Eq)]
pub struct Depths {
    /// Before a line that opens a table.
    pub head: usize,
    /// Before a line with a text.
    pub text: usize,
}

/// What was gathered of the lines so far.
#[derive(Debug, Drop)]
pub struct Gathered {
    /// Whether they end within the global that is asked for.
    pub inside: bool,
    pub outer: Bytes,
    pub groups: Items<Group>,
}

/// The groups of the lines under a global of that name. The only error is want of memory.
pub fn groups_under(
    alloc: Global,
    name: &[u8],
    depths: Depths,
    bytes: &[u8],
) -> Result<Items<Group>, AllocError>
    ensures { IfOk result (λ groups. groups ≡ groups_under name.now depths bytes.now) }
{
    let mut gathered = Gathered {
        inside: false,
        outer: Bytes::from(Vec::new(alloc)),
        groups: Items::new(alloc),
    };
    for line in bytes.split(|b| *b == b'\n') {
        add_line(alloc, name, depths, line, &mut gathered)?;
    }
    let Gathered { groups, .. } = gathered;
    Ok(groups)
}

fn add_line(
    alloc: Global,
    name: &[u8],
    depths: Depths,
    line: &[u8],
    gathered: &mut Gathered,
) -> Result<(), AllocError>
    ensures { OnOk result (gathered.new ≡ with_line name.now depths gathered.old line.now) }
{
    let blanks = blanks(line);
    if blanks == 0 {
        gathered.inside = line.starts_with(name);
        return Ok(());
    }
    if !gathered.inside {
        return Ok(());
    }
    add_inner(alloc, depths, blanks, &line[blanks..], gathered)
}

fn blanks(line: &[u8]) -> usize
    ensures value { result ≡ prefix_len (λ b. b == 32) line.now }
    ensures within { result ≤ length line.now }
{
    line.iter().take_while(|b| **b == b' ').count()
}

// Adds what stands behind so many blanks, in the global that is asked for.
fn add_inner(
    alloc: Global,
    depths: Depths,
    blanks: usize,
    text: &[u8],
    gathered: &mut Gathered,
) -> Result<(), AllocError>
    ensures { OnOk result (gathered.new ≡ with_inner depths blanks text.now gathered.old) }
{
    if blanks == depths.text {
        return add_text(alloc, text, &mut gathered.groups);
    }
    if text.starts_with(b"}") {
        return Ok(());
    }
    if blanks == depths.head {
        return add_group(alloc, text, gathered);
    }
    if blanks == 3 {
        gathered.outer = Bytes::from(Vec::from_slice(alloc, text)?);
    }
    Ok(())
}

fn add_group(alloc: Global, head: &[u8], gathered: &mut Gathered) -> Result<(), AllocError>
    ensures { OnOk result (gathered.new ≡ record gathered.old {
      groups = gathered.old.groups ++ record { outer = gathered.old.outer; head = head.now; texts = [] } ∷ [];
    }) }
{
    let group = Group {
        outer: gathered.outer.copy(alloc)?,
        head: Bytes::from(Vec::from_slice(alloc, head)?),
        texts: Items::new(alloc),
    };
    gathered.groups.push(group)
}

// Adds a text to the last group, if there is one.
fn add_text(alloc: Global, text: &[u8], groups: &mut Items<Group>) -> Result<(), AllocError>
    ensures { OnOk result (groups.new ≡ with_text text.now groups.old) }
{
    if let Some(mut group) = groups.pop() {
        group
            .texts
            .push(Bytes::from(Vec::from_slice(alloc, text)?))?;
        groups.push(group)?;
    }
    Ok(())
}
