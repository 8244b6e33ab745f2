use explanations::{Names, Standing};
use std::fs;
use std::io::ErrorKind;

/// The names of the real file system.
#[derive(Drop)]
pub(crate) struct SystemNames<'a, R> {
    rt: &'a R,
}

impl<'a, R: std::rt::Files> SystemNames<'a, R> {
    pub(crate) fn new(rt: &'a R) -> SystemNames<'a, R> {
        SystemNames { rt }
    }
}

impl<R: std::rt::Files> Names for SystemNames<'_, R> {
    fn standing(&self, name: &str) -> Standing {
        match fs::metadata(self.rt, name) {
            Ok(found) if found.is_dir() => Standing::Folder,
            Ok(found) if found.is_file() => Standing::File,
            Ok(_) => Standing::Other,
            Err(fault) if fault.kind() == ErrorKind::NotFound => Standing::Nothing,
            Err(_) => Standing::Other,
        }
    }
}
