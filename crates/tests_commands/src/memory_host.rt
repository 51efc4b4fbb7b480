//! A host in memory, for tests.
ghost use Rattle.std.specs.Prelude.{◌≡◌, ◌++◌, OnOk, codes};
ghost use Rattle.tests_commands.specs.MemoryHost.{memory_calls};

use crate::at_path::AtPath;
use command_host::{FailedFile, Host, SearchRequest};
use dimacs::{Failed, MemorySink};
use std::alloc::{AllocError, Global};
use verdict_report::ShortSource;

/// A host whose input files are slices in memory. It keeps the last output file that was closed, the last search that was reported to
/// it, and the files of its folder.
#[derive(Drop)]
pub struct MemoryHost<'p> {
    alloc: Global,
    files: &'p [(&'p str, &'p [u8])],
    most: usize,
    can_create: bool,
    /// The last output file that was closed.
    made: Option<MemorySink>,
    searched: Option<SearchRequest>,
    /// The files that were made in a folder, one after the other: the name, a line feed, and the bytes.
    kept: Vec<u8>,
    /// The name of a file that is in the folder already, or no byte.
    taken: &'p str,
}

impl<'p> MemoryHost<'p> {
    /// A host that has these files, each with its path, and that gives at most `most` bytes of a file per read.
    pub fn new(alloc: Global, files: &'p [(&'p str, &'p [u8])], most: usize) -> MemoryHost<'p> {
        MemoryHost {
            alloc,
            files,
            most,
            can_create: true,
            made: None,
            searched: None,
            kept: Vec::new(alloc),
            taken: "",
        }
    }

    /// The same host, where no file can be created.
    pub fn read_only(mut self) -> MemoryHost<'p> {
        self.can_create = false;
        self
    }

    /// The same host, whose folder has a file of this name.
    pub fn with_taken(mut self, name: &'p str) -> MemoryHost<'p> {
        self.taken = name;
        self
    }

    /// The files that were made in a folder.
    pub fn kept(&self) -> &[u8] {
        self.kept.as_slice()
    }

    /// Keeps a file of this name with these bytes.
    fn keep_file(&mut self, name: &str, bytes: &[u8]) -> Result<(), AllocError>
        ensures { OnOk result (self.new.kept.items ≡ self.old.kept.items ++ (name.now ++ (codes "\n" ++ bytes.now))) }
    {
        self.kept.extend_from_slice(name.as_bytes())?;
        self.kept.extend_from_slice(b"\n")?;
        self.kept.extend_from_slice(bytes)
    }

    /// Gives the bytes of the last output file that was closed.
    pub fn made(&self) -> Option<&[u8]> {
        self.made.as_ref().map(|file| file.as_slice())
    }

    /// The last search that was reported to it.
    pub fn searched(&self) -> Option<SearchRequest> {
        self.searched
    }

    /// The bytes of the file at this path, if there is one.
    fn bytes_at(&self, path: &str) -> Option<&'p [u8]> {
        for (name, bytes) in self.files {
            if *name == path {
                return Some(*bytes);
            }
        }
        None
    }
}

impl<'p> Host<'p> for MemoryHost<'p> {
    type Input = AtPath<'p, ShortSource<'p>>;

    type Output = AtPath<'p, MemorySink>;

    ghost calls = { memory_calls };

    fn source(&mut self, path: &'p str) -> AtPath<'p, ShortSource<'p>> {
        let stream = match self.bytes_at(path) {
            Some(bytes) => ShortSource::new(bytes, self.most),
            // As a file that cannot be opened: its first read fails.
            None => ShortSource::new(b"", 1).failing_at(1),
        };
        AtPath { path, stream }
    }

    fn create(
        &mut self,
        path: &'p str,
        _is_emptied: bool,
    ) -> Result<AtPath<'p, MemorySink>, Failed> {
        if self.can_create {
            let stream = MemorySink::new(self.alloc);
            Ok(AtPath { path, stream })
        } else {
            Err(Failed)
        }
    }

    fn close(&mut self, file: AtPath<'p, MemorySink>) {
        let AtPath { path: _, stream } = file;
        self.made = Some(stream);
    }

    fn is_same_file(&mut self, _first: &str, _second: &str) -> bool {
        false
    }

    fn is_free(&mut self, _folder: &str) -> bool {
        self.taken.is_empty()
    }

    fn make_folder(&mut self, _folder: &'p str) -> Result<(), Failed> {
        if !self.can_create {
            return Err(Failed);
        }
        Ok(())
    }

    fn keep(&mut self, _folder: &'p str, name: &str, bytes: &[u8]) -> Result<bool, Failed> {
        if name == self.taken {
            return Ok(false);
        }
        match self.keep_file(name, bytes) {
            Ok(()) => Ok(true),
            Err(_) => Err(Failed),
        }
    }

    fn begin_search(&mut self, search: &SearchRequest) {
        self.searched = Some(*search);
    }

    fn failed_file(&self) -> Option<FailedFile<'p>> {
        None
    }
}
