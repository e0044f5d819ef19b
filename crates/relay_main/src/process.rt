//! The figures of this process, which the system has in `/proc`.

use process_figures::{ProcFiles, ProcessFigures};
use std::alloc::Global;
use std::fs::{File, OpenFile};
use std::io;
use std::io::{Read, Seek};
use std::rt::Files;
use std::sync::{Mutex, Wait};

/// The files that have the figures of this process. Each is opened once, and read anew each time. `None` if it can't be opened.
#[derive(Drop)]
pub(crate) struct ProcessFiles {
    stat: Option<File>,
    system: Option<File>,
    limits: Option<File>,
    /// The folder of the open descriptors.
    descriptors: Option<File>,
}

impl ProcessFiles {
    /// Opens them.
    pub(crate) fn open<R: Files<File = File>>(rt: &R) -> ProcessFiles {
        ProcessFiles {
            stat: File::open(rt, "/proc/self/stat").ok(),
            system: File::open(rt, "/proc/stat").ok(),
            limits: File::open(rt, "/proc/self/limits").ok(),
            descriptors: File::open(rt, "/proc/self/fd").ok(),
        }
    }

    /// Returns how many descriptors this process has open: the length of their folder, which Linux has since 6.2. Before, it is 0.
    fn count_open_files(&self) -> Option<u64> {
        let Some(descriptors) = &self.descriptors else {
            return None;
        };
        match descriptors.metadata() {
            Ok(folder) if folder.len() > 0 => Some(folder.len()),
            _ => None,
        }
    }
}

/// Returns the figures of this process now. A figure is left out if its file can't be read, or memory is refused for it.
pub(crate) fn read_process(
    rt: &impl Wait,
    alloc: Global,
    files: &Mutex<ProcessFiles>,
) -> ProcessFigures {
    let mut files = files.lock(rt);
    let open_files = files.count_open_files();
    let stat = text_of(alloc, &mut files.stat);
    let system = text_of(alloc, &mut files.system);
    let limits = text_of(alloc, &mut files.limits);
    let texts = ProcFiles {
        stat: &stat,
        system: &system,
        limits: &limits,
    };
    ProcessFigures::of(&texts, open_files)
}

/// Returns the bytes of a file, or none if it can't be read.
fn text_of(alloc: Global, file: &mut Option<File>) -> Vec<u8> {
    let Some(file) = file else {
        return Vec::new(alloc);
    };
    match read_anew(alloc, file) {
        Ok(text) => text,
        Err(_) => Vec::new(alloc),
    }
}

/// Reads a file from its beginning.
fn read_anew(alloc: Global, file: &mut File) -> io::Result<Vec<u8>> {
    file.rewind()?;
    let mut text = Vec::new(alloc);
    file.read_to_end(&mut text)?;
    Ok(text)
}
