//! An input, cut into lines.
use crate::fault::ScriptFault;
use std::alloc::Global;
use std::io::{BufRead, BufReader, ErrorKind, Read};

/// An input that is read line by line. A line ends with the byte 0A, and holds any other bytes.
#[derive(Drop)]
pub struct Lines<R> {
    input: BufReader<R>,
    line: Vec<u8>,
    has_ended: bool,
}

impl<R: Read + Drop> Lines<R> {
    /// Lines of `input`, read through a buffer.
    pub fn new(alloc: Global, input: R) -> Result<Lines<R>, ScriptFault> {
        let input = BufReader::new(alloc, input).map_err(|_| ScriptFault::Memory)?;
        Ok(Lines {
            input,
            line: Vec::new(alloc),
            has_ended: false,
        })
    }

    /// Whether there is another byte. Once the input has ended, it is not read again.
    pub fn has_more(&mut self) -> Result<bool, ScriptFault> {
        if self.has_ended {
            return Ok(false);
        }
        for _ in 0..u64::MAX {
            match self.input.fill_buf() {
                Ok(piece) => {
                    self.has_ended = piece.is_empty();
                    return Ok(!self.has_ended);
                }
                Err(error) if error.kind() == ErrorKind::Interrupted => {}
                Err(_) => return Err(ScriptFault::Input),
            }
        }
        Err(ScriptFault::Input)
    }

    /// Whether everything that was read was returned, so that the next call reads again.
    pub fn is_drained(&self) -> bool {
        self.input.buffer().is_empty()
    }

    /// The next line without its end, or `None` after the last. A last line without an end is a
    /// line if it is not empty.
    pub fn next_line(&mut self) -> Result<Option<&[u8]>, ScriptFault> {
        self.line.clear();
        for _ in 0..u64::MAX {
            if !self.has_more()? {
                return Ok(self.last_line());
            }
            if self.take_piece()? {
                return Ok(Some(self.line.as_slice()));
            }
        }
        Err(ScriptFault::Input)
    }

    // What follows the last line end.
    fn last_line(&self) -> Option<&[u8]> {
        if self.line.is_empty() {
            None
        } else {
            Some(self.line.as_slice())
        }
    }

    // Moves what is buffered, up to the line's end, to the line. Returns whether the line ended.
    fn take_piece(&mut self) -> Result<bool, ScriptFault> {
        let piece = self.input.buffer();
        let end = piece.iter().position(|byte| *byte == b'\n');
        let length = end.unwrap_or(piece.len());
        self.line
            .extend_from_slice(&piece[..length])
            .map_err(|_| ScriptFault::Memory)?;
        let taken = if end.is_some() { length + 1 } else { length };
        self.input.consume(taken);
        Ok(end.is_some())
    }
}
