//! The stored cases. Each is a line `case HOUSE`, then pieces, each a line `piece TIMES LENGTH`, that many bytes and a LF,
//! and at its end a line `records` with the numbers of the lines to look at.
use anyhow::anyhow;
use std::str::from_utf8;

/// What is left of the stored cases, and the line that was read last.
// Nothing compares it, so it has no equality.
#[derive(Drop)]
pub struct Cases<'a> {
    rest: &'a [u8],
    line: &'a [u8],
}

impl<'a> Cases<'a> {
    pub(crate) fn new(stored: &'a [u8]) -> Cases<'a> {
        Cases {
            rest: stored,
            line: b"",
        }
    }

    // The next so many bytes, if there are as many.
    fn take(&mut self, length: usize) -> anyhow::Result<&'a [u8]> {
        if length > self.rest.len() {
            return Err(anyhow!("a case ends early"));
        }
        let (taken, rest) = self.rest.split_at(length);
        self.rest = rest;
        Ok(taken)
    }

    // Goes on to the next line.
    fn next_line(&mut self) -> anyhow::Result<()> {
        let end = self.rest.iter().position(|byte| *byte == b'\n');
        self.line = self.take(end.unwrap_or(self.rest.len()))?;
        if end.is_some() {
            self.take(1)?;
        }
        Ok(())
    }

    // One piece of a file, as often as the line says.
    fn piece(&mut self, file: &mut Vec<u8>) -> anyhow::Result<()> {
        let mut words = from_utf8(self.line)?.split(' ').skip(1);
        let times = words.next().unwrap_or("").parse::<u64>()?;
        let length = words.next().unwrap_or("").parse::<usize>()?;
        let bytes = self.take(length)?;
        self.take(1)?;
        for _ in 0..times {
            file.extend_from_slice(bytes)?;
        }
        Ok(())
    }

    // The words that choose the next case's house, if there is a case left.
    pub(crate) fn next_case(&mut self) -> anyhow::Result<Option<&'a [u8]>> {
        if self.rest.is_empty() {
            return Ok(None);
        }
        self.next_line()?;
        match self.line.strip_prefix(b"case ") {
            Some(house) => Ok(Some(house)),
            None => Err(anyhow!("a case does not begin with its house")),
        }
    }

    // Fills the vector with the case's file.
    pub(crate) fn file(&mut self, file: &mut Vec<u8>) -> anyhow::Result<()> {
        file.clear();
        // Until a line is no piece: each time round takes one, so there are never so many.
        for _ in 0..u64::MAX {
            self.next_line()?;
            if !self.line.starts_with(b"piece ") {
                break;
            }
            self.piece(file)?;
        }
        Ok(())
    }

    // The line that ends a case.
    pub(crate) fn lines(&self) -> anyhow::Result<&'a str> {
        if !self.line.starts_with(b"records") {
            return Err(anyhow!("a case does not end with its records"));
        }
        Ok(from_utf8(self.line)?)
    }
}
