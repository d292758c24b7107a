// The reader of lines: what it holds of the source, and the line that it took last.
ghost use Rattle.std.specs.Prelude.{◌≡◌, ◌+◌, ◌-◌, ◌^◌, ◌<◌, ◌≤◌, [], length, vec_capacity, slice_range, IfOk, MatchResult, OnErr, MatchBool, Contains};
ghost use Rattle.std.specs.Io.KnownBytes.{Keeps, IsAtEnd, Consumes};
ghost use Rattle.pc_port.specs.Port.{HasCause};
ghost use Rattle.pc_port.specs.declared.TheConstants.{CHUNK};
ghost use Rattle.pc_lines.specs.Lines.{IsOpenLine, line_text_of, length_of};
ghost use Rattle.pc_lines.specs.Reader.{ReaderState, IsNewReader, coming, Moves, IsTakenPart, IsTakenUpTo, IsTaken, IsNextLine};

use crate::split::{line_end, without_return};
use pc_port::{CHUNK, Failed, Source};
use std::alloc::{AllocError, Global};
use std::marker::Model;

/// What stands in the reader's line after a call.
#[derive(Clone, Copy, PartialEq, Eq)]
pub enum Taken {
    /// A line with its line feed.
    Line,
    /// The last line, which has no line feed.
    Last,
    /// Nothing: the end of the input.
    End,
    /// The start of a line that is longer than the limit.
    TooLong,
}

// How far the bytes that are held took the line.
#[derive(Clone, Copy)]
enum Part {
    Ended,
    Open,
    Long,
}

/// Takes one line at a time, and reads only where no whole line is held.
#[derive(Drop)]
pub struct LineReader {
    chunk: Vec<u8>,
    from: usize,
    to: usize,
    line: Vec<u8>,
    longest: usize,
}

impl Model for LineReader {
    ghost Value = { ReaderState };

    ghost view = { λ r. record {
      line = r.line.items;
      held = slice_range r.chunk.items r.from r.to;
      longest = r.longest;
    } };

    ghost invariant = { λ r. (r.from ≤ r.to) × (r.to ≤ length r.chunk.items) × (length r.chunk.items ≡ CHUNK) × (r.longest + 1 ≤ vec_capacity r.line) };
}

// How many of the bytes go on a line that has so much room left, and how far they take it.
fn cut(bytes: &[u8], room: usize) -> (usize, Part)
    ensures within { result.0 ≤ length bytes.now }
    ensures part { IsTakenUpTo result.1 room bytes.now result.0 }
{
    match line_end(bytes) {
        Some(end) if end <= room => (end + 1, Part::Ended),
        None if bytes.len() <= room => (bytes.len(), Part::Open),
        _ => (room + 1, Part::Long),
    }
}

impl LineReader {
    /// A reader with room for lines of at most `longest` bytes, a carriage return counted and the line feed not.
    pub fn new(alloc: Global, longest: usize) -> Result<Self, AllocError>
        requires { longest < 2 ^ 64 - 1 }
        ensures { IfOk result (IsNewReader longest) }
    {
        let chunk = vec![in alloc; 0u8; CHUNK]?;
        let line = Vec::with_capacity(alloc, longest + 1)?;
        Ok(LineReader {
            chunk,
            from: 0,
            to: 0,
            line,
            longest,
        })
    }

    /// The line that was taken last, with its line feed.
    pub fn line(&self) -> &[u8]
        ensures { result.now ≡ self.now.line }
    {
        &self.line
    }

    /// The line that was taken last, without its line feed and one carriage return before that.
    pub fn text(&self) -> &[u8]
        ensures text { result.now ≡ line_text_of self.now.line }
        ensures short { length result.now ≤ length_of self.now.line }
    {
        text(&self.line)
    }

    // Moves what is held of the line, up to its line feed or to the first byte that is too many.
    fn take_part(&mut self, limit: usize) -> Part
        requires room { limit ≤ self.old.longest }
        requires open_line { IsOpenLine limit self.old.line }
        ensures moves { Moves self.old self.new }
        ensures part { IsTakenPart result limit self.new }
    {
        let (count, part) = cut(&self.chunk[self.from..self.to], limit - self.line.len());
        self.line
            .extend_from_slice(&self.chunk[self.from..self.from + count])
            .unwrap();
        self.from += count;
        part
    }

    // Reads where nothing is held. `Ok(false)` is the end of input.
    fn fill<S: Source>(&mut self, source: &mut S) -> Result<bool, Failed>
        ensures line { self.new.line ≡ self.old.line }
        ensures longest { self.new.longest ≡ self.old.longest }
        ensures bytes { Keeps (coming self.old (S.left source.old))
            (coming self.new (S.left source.new)) }
        ensures some { IfOk result (λ more. MatchBool more (0 < length self.new.held)
            (IsAtEnd (coming self.new (S.left source.new)))) }
        ensures fault { OnErr result (self.new.held ≡ []) }
        ensures few { length self.new.held ≤ CHUNK }
        ensures waits { 0 < length self.old.held → (self.new.held ≡ self.old.held) ×
            (source.new ≡ source.old) }
        ensures cause { HasCause (S.faults source.old) (S.faults source.new) result }
    {
        if self.from < self.to {
            return Ok(true);
        }
        let count = source.read(&mut self.chunk)?;
        self.from = 0;
        self.to = count;
        Ok(count > 0)
    }

    /// Takes the next line, of at most `limit` bytes. What is taken from the bytes still to come is what then stands in
    /// the line, also where that is too long or a read failed.
    pub fn next<S: Source>(&mut self, source: &mut S, limit: usize) -> Result<Taken, Failed>
        requires { limit ≤ self.old.longest }
        ensures takes { Consumes (coming self.old (S.left source.old))
            (coming self.new (S.left source.new)) self.new.line }
        ensures taken { MatchResult result (λ taken.
            IsTaken taken limit self.new.line (coming self.new (S.left source.new)))
            (λ _. IsOpenLine limit self.new.line) }
        ensures lines { IfOk result (λ taken. IsNextLine taken limit self.new.line
            (coming self.old (S.left source.old)) (coming self.new (S.left source.new))) }
        ensures longest { self.new.longest ≡ self.old.longest }

        // No more is held than one read gives, and at a fault all that was read before it has been taken.
        ensures few { length self.new.held ≤ CHUNK }
        ensures fault { OnErr result (self.new.held ≡ []) }

        // The source is not read while a whole line is held.
        ensures waits { Contains self.old.held 10 → source.new ≡ source.old }
        ensures cause { HasCause (S.faults source.old) (S.faults source.new) result }
    {
        self.line.clear();
        while self.fill(source)? {
            match self.take_part(limit) {
                Part::Ended => return Ok(Taken::Line),
                Part::Long => return Ok(Taken::TooLong),
                Part::Open => {}
            }
        }
        if self.line.is_empty() {
            return Ok(Taken::End);
        }
        Ok(Taken::Last)
    }
}

// A line without its line feed and one carriage return before that.
fn text(line: &[u8]) -> &[u8]
    ensures { result.now ≡ line_text_of line.now }
{
    match line_end(line) {
        None => line,
        Some(end) => without_return(&line[..end]),
    }
}
