//! What comes of rockspecs, in words.
use build_plan::{BuildPlan, Dest, Recipe, Target};
use rocks_text::Kind;
use rockspec::{Format, Rockspec};
use std::alloc::{AllocError, Global};

/// What is told of a rockspec that is read: its format, name and version, what it needs, or its plan.
#[derive(Clone, Copy)]
pub enum Part {
    Head,
    Needs,
    Plan,
}

/// That part of the rockspec that the bytes are, or the text of the fault. What a rock needs, the files and the folders
/// have a line each.
pub fn told(alloc: Global, bytes: &[u8], part: Part) -> Result<Vec<u8>, AllocError> {
    match Rockspec::read(alloc, bytes) {
        Ok(rockspec) => part_told(alloc, &rockspec, part),
        Err(fault) => Ok(fault.text(alloc)?.into_vec()),
    }
}

fn part_told(alloc: Global, rockspec: &Rockspec, part: Part) -> Result<Vec<u8>, AllocError> {
    match part {
        Part::Head => head_told(alloc, rockspec),
        Part::Needs => needs_told(alloc, rockspec),
        Part::Plan => plan_told(alloc, &rockspec.plan),
    }
}

fn push(parts: &[&str], out: &mut Vec<u8>) -> Result<(), AllocError> {
    for part in parts {
        out.extend_from_slice(part.as_bytes())?;
    }
    Ok(())
}

fn head_told(alloc: Global, rockspec: &Rockspec) -> Result<Vec<u8>, AllocError> {
    let format = match rockspec.format {
        Format::One => "1.0 ",
        Format::OneOne => "1.1 ",
        Format::Three => "3.0 ",
    };
    let mut out = Vec::from_slice(alloc, format.as_bytes())?;
    let version = rockspec.key.version.as_str();
    push(&[rockspec.key.name.as_str(), " ", version], &mut out)?;
    Ok(out)
}

fn needs_told(alloc: Global, rockspec: &Rockspec) -> Result<Vec<u8>, AllocError> {
    let mut out = Vec::new(alloc);
    for dependency in rockspec.dependencies.as_slice() {
        let text = dependency.text(alloc)?;
        push(&[text.as_str(), "\n"], &mut out)?;
    }
    Ok(out)
}

fn plan_told(alloc: Global, plan: &BuildPlan) -> Result<Vec<u8>, AllocError> {
    match plan {
        BuildPlan::Build(recipe) => recipe_told(alloc, recipe),
        BuildPlan::Refused(fault) => Ok(fault.text(alloc)?.into_vec()),
    }
}

fn recipe_told(alloc: Global, recipe: &Recipe) -> Result<Vec<u8>, AllocError> {
    let mut out = Vec::new(alloc);
    for target in recipe.files.as_slice() {
        push_target(target, &mut out)?;
    }
    for folder in recipe.folders.as_slice() {
        push(&["folder ", folder.as_str(), "\n"], &mut out)?;
    }
    Ok(out)
}

fn push_target(target: &Target, out: &mut Vec<u8>) -> Result<(), AllocError> {
    push_dest(&target.to, out)?;
    push(&[" < ", target.from.as_str(), "\n"], out)
}

fn push_dest(dest: &Dest, out: &mut Vec<u8>) -> Result<(), AllocError> {
    match dest {
        Dest::Item(item) => {
            push(&[kind_name(item.kind), " "], out)?;
            push(&[item.path.as_str()], out)
        }
        Dest::Conf(path) => push(&["conf ", path.as_str()], out),
    }
}

fn kind_name(kind: Kind) -> &'static str {
    match kind {
        Kind::Lua => "Lua",
        Kind::Lib => "Lib",
        Kind::Bin => "Bin",
    }
}
