//! Where files are opened by their paths.
ghost use Rattle.std.specs.Prelude.{ℕ, List, None, Option, IfOk};
ghost use Rattle.office_files.specs.InFile.{HasBytes};

use std::fs::OpenOptions;
use std::io::{Read, Write};
use std::rt::Files;
use std::{fs, io};

/// Where files are opened by their paths. An open file may be handed to another thread.
pub trait FileSystem {
    type File: Read + Write + Send + Drop;

    /// The bytes of the file at a path, where they are known.
    ghost bytes_at: { Self → List ℕ → Option (List ℕ) };

    /// Opens the file at a path for reading, from its first byte on.
    fn open_at(&self, path: &str) -> io::Result<Self::File>
        ensures { IfOk result (λ file. HasBytes (bytes_at self.now path.now) (Self.File.remaining file)) };

    /// Opens the file at a path for writing behind what it has, and makes it where there is none.
    fn append_at(&self, path: &str) -> io::Result<Self::File>;
}

// The files of the operating system: no clause knows their bytes.
impl<R: Files> FileSystem for R
where
    R::File: Send,
{
    type File = R::File;

    ghost bytes_at = { λ _ _. None };

    fn open_at(&self, path: &str) -> io::Result<R::File> {
        fs::open(self, path)
    }

    fn append_at(&self, path: &str) -> io::Result<R::File> {
        OpenOptions::new()
            .append(true)
            .create(true)
            .open(self, path)
    }
}
