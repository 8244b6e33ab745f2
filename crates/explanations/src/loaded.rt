use crate::outside::{Names, bytes_of};
use ios_config::{Router, read_config};
use ios_names::NameTable;
use mg_outside::Files;
use notes::{Report, config_notes};
use query_lang::{Kind, Script};
use std::alloc::{AllocError, Global};

/// A router that a script loads.
#[derive(Drop)]
pub(crate) struct Loaded<'a> {
    pub(crate) file: &'a str,
    pub(crate) name: &'a str,
    pub(crate) router: Router,
}

/// The routers that the statements up to this line load, with notes on each file, once.
pub(crate) fn load_all<'a, F: Files, N: Names>(
    alloc: Global,
    script: &'a Script,
    last: u64,
    files: &mut F,
    names: &N,
    report: &mut Report,
) -> Result<Vec<Loaded<'a>>, AllocError> {
    let mut all = Vec::new(alloc);
    for statement in script.statements.as_slice() {
        if let Kind::LoadIos { file, name } = &statement.kind {
            if statement.line <= last {
                let seen = is_loaded(all.as_slice(), file.as_str());
                let (file, name) = (file.as_str(), name.as_str());
                if let Some(loaded) = load(alloc, file, name, seen, files, names, report)? {
                    all.push(loaded)?;
                }
            }
        }
    }
    Ok(all)
}

/// Whether the file is loaded under some name.
fn is_loaded(all: &[Loaded<'_>], file: &str) -> bool {
    all.iter().any(|loaded| loaded.file == file)
}

/// The router of a file, with notes unless the file was seen. None where it can't be read now.
fn load<'a, F: Files, N: Names>(
    alloc: Global,
    file: &'a str,
    name: &'a str,
    seen: bool,
    files: &mut F,
    names: &N,
    report: &mut Report,
) -> Result<Option<Loaded<'a>>, AllocError> {
    let Some(bytes) = bytes_of(alloc, files, names, file)? else {
        return Ok(None);
    };
    let mut table = NameTable::new(alloc);
    let Ok(router) = read_config(alloc, bytes.as_slice(), &mut table) else {
        return Ok(None);
    };
    if !seen {
        if let Err(fault) = config_notes(alloc, file, bytes.as_slice(), &router, report) {
            drop(router);
            return Err(fault);
        }
    }
    Ok(Some(Loaded { file, name, router }))
}
