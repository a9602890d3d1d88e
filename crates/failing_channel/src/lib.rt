//! A reader and a writer over memory that may fail, for the tests of exchanges.
#![tactic(auto)]

use std::alloc::Global;
use std::io;
use std::io::{ErrorKind, Read, Write};

/// A reader that is interrupted before each byte, and gives one at a time. At its end it may fail.
#[derive(Drop)]
pub struct Input<'b> {
    rest: &'b [u8],
    fails: bool,
    interrupted: bool,
}

impl<'b> Input<'b> {
    /// Gives these bytes; at their end it fails, or says that there are no more.
    pub fn new(bytes: &'b [u8], fails: bool) -> Input<'b> {
        Input {
            rest: bytes,
            fails,
            interrupted: false,
        }
    }

    /// Returns how many bytes were not read.
    pub fn bytes_unread(&self) -> usize {
        self.rest.len()
    }
}

impl Read for Input<'_> {
    fn read(&mut self, buf: &mut [u8]) -> io::Result<usize> {
        self.interrupted = !self.interrupted;
        if self.interrupted {
            return Err(ErrorKind::Interrupted.into());
        }
        match self.rest.split_first() {
            Some((byte, rest)) if !buf.is_empty() => {
                buf[0] = *byte;
                self.rest = rest;
                Ok(1)
            }
            None if self.fails => Err(ErrorKind::ConnectionReset.into()),
            _ => Ok(0),
        }
    }
}

/// A writer that takes this many bytes, and then fails. What isn't flushed isn't handed on.
#[derive(Drop)]
pub struct Output {
    room: usize,
    /// What was written and not handed on.
    pub waiting: Vec<u8>,
    /// What was written and handed on.
    pub flushed: Vec<u8>,
}

impl Output {
    /// Takes this many bytes.
    pub fn new(alloc: Global, room: usize) -> Output {
        Output {
            room,
            waiting: Vec::new(alloc),
            flushed: Vec::new(alloc),
        }
    }
}

impl Write for Output {
    fn write(&mut self, buf: &[u8]) -> io::Result<usize> {
        let taken = buf.len().min(self.room);
        if taken == 0 || self.waiting.extend_from_slice(&buf[..taken]).is_err() {
            return Err(ErrorKind::BrokenPipe.into());
        }
        self.room -= taken;
        Ok(taken)
    }

    fn flush(&mut self) -> io::Result<()> {
        if self.flushed.extend_from_slice(&self.waiting).is_err() {
            return Err(ErrorKind::BrokenPipe.into());
        }
        self.waiting.clear();
        Ok(())
    }
}
