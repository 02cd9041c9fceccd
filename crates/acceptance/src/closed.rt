//! A system that is closed to the program: it has no files and no cards, and its output takes nothing.

use std::alloc::Allocator;
use std::fmt::Display;
use std::fs::{File, Files, Metadata, OpenOptions};
use std::io::{Error, ErrorKind, Print, Read, Result};

/// No files, cards that can't be read, and an output that takes nothing.
#[derive(Clone, Copy)]
pub struct Closed;

// What each call answers.
fn broken_pipe<T>() -> Result<T> {
    Err(Error::from(ErrorKind::BrokenPipe))
}

impl Read for Closed {
    fn read(&mut self, _buf: &mut [u8]) -> Result<usize> {
        Err(Error::from(ErrorKind::BrokenPipe))
    }
}

impl Print for Closed {
    fn print<D: Display + Drop>(&self, _value: D) -> Result<()> {
        broken_pipe()
    }

    fn println<D: Display + Drop>(&self, _value: D) -> Result<()> {
        broken_pipe()
    }

    fn write_all(&self, _bytes: &[u8]) -> Result<()> {
        broken_pipe()
    }
}

impl Files for Closed {
    type File = File;

    type Dir = File;

    fn open_file(&self, _how: &OpenOptions, _path: &str) -> Result<File> {
        broken_pipe()
    }

    fn open_dir(&self, _path: &str) -> Result<File> {
        broken_pipe()
    }

    fn metadata(&self, _path: &str) -> Result<Metadata> {
        broken_pipe()
    }

    fn symlink_metadata(&self, _path: &str) -> Result<Metadata> {
        broken_pipe()
    }

    fn copy(&self, _from: &str, _to: &str) -> Result<u64> {
        broken_pipe()
    }

    fn rename(&self, _from: &str, _to: &str) -> Result<()> {
        broken_pipe()
    }

    fn remove_file(&self, _path: &str) -> Result<()> {
        broken_pipe()
    }

    fn create_dir(&self, _path: &str) -> Result<()> {
        broken_pipe()
    }

    fn remove_dir(&self, _path: &str) -> Result<()> {
        broken_pipe()
    }

    fn remove_dir_all<B: Allocator>(&self, _alloc: B, _path: &str) -> Result<()> {
        broken_pipe()
    }
}
