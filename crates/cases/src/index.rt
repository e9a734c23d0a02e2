//! The names of the cases: one a line, in groups under headings that begin with `#`.

use std::alloc::{AllocError, Global};
use std::{fs, io};

/// The names that an index has.
pub fn read_index(alloc: Global, text: &str) -> Result<Vec<String>, AllocError> {
    let mut names = Vec::new(alloc);
    for line in text.lines() {
        if !line.is_empty() && !line.starts_with('#') {
            names.push(String::from_str(alloc, line)?)?;
        }
    }
    Ok(names)
}

fn has_name(names: &[String], name: &str) -> bool {
    names.iter().any(|known| known.as_str() == name)
}

/// How deep folders of cases may lie.
const DEEPEST: usize = 4;

/// The cases that lie beside the index or below it, and have none of these names.
pub fn not_named(rt: &HostRuntime, names: &[String]) -> io::Result<Vec<String>> {
    let mut missing = Vec::new(rt.alloc());
    let mut folders = Vec::new(rt.alloc());
    folders.push(String::new(rt.alloc()))?;
    for _ in 0..DEEPEST {
        let mut below = Vec::new(rt.alloc());
        for folder in &folders {
            for name in entries_of(rt, folder)? {
                if !name.ends_with(".case") {
                    below.push(format!(in rt.alloc(); "{name}/")?)?;
                } else if !has_name(names, &name) {
                    missing.push(name)?;
                }
            }
        }
        folders = below;
    }
    Ok(missing)
}

/// What lies in a folder, whose name ends in `/`, or in this one; nothing lies in a file.
fn entries_of(rt: &HostRuntime, folder: &str) -> io::Result<Vec<String>> {
    let mut names = Vec::new(rt.alloc());
    let path = format!(in rt.alloc(); "./{folder}")?;
    let Ok(entries) = fs::read_dir(rt, path.as_str()) else {
        return Ok(names);
    };
    for entry in entries {
        let entry = entry?;
        let name = entry.file_name();
        names.push(format!(in rt.alloc(); "{folder}{name}")?)?;
    }
    Ok(names)
}
