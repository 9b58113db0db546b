// What a file has shown so far, and the lines that the program writes on it.
use crate::Unread;
use crate::ids::{Id, UnknownId};
use std::io::Write;
use std::{fmt, io};
use thiserror::Error;

// Disagreements of one file that get a line of their own.
const MOST_LINES: u64 = 10;

// A record that disagrees, or whose id is none.
#[derive(Clone, Copy, Debug, Error)]
pub enum Wrong {
    #[error("of {0} disagrees")]
    Disagrees(Id),
    #[error("has the unknown id {}", .0.0)]
    UnknownId(#[from] UnknownId),
}

// A vector is named by its place in its file, from 0, as `oracle alter` counts.
#[derive(Clone, Copy)]
pub struct Run<'a> {
    file: &'a str,
    place: u64,
    agree: u64,
    disagree: u64,
}

impl<'a> Run<'a> {
    pub fn new(file: &'a str) -> Run<'a> {
        Run {
            file,
            place: 0,
            agree: 0,
            disagree: 0,
        }
    }

    // After a record that adds to the counts.
    fn counted(self, agree: u64, disagree: u64) -> Run<'a> {
        Run {
            place: self.place.wrapping_add(1),
            agree: self.agree.wrapping_add(agree),
            disagree: self.disagree.wrapping_add(disagree),
            ..self
        }
    }

    // With another file's counts.
    pub fn with(self, other: Run<'_>) -> Run<'a> {
        self.counted(other.agree, other.disagree)
    }

    // A line on the record that is next.
    fn remark<W: Write, D: fmt::Display + Drop>(self, out: &mut W, text: D) -> io::Result<()> {
        let Run { file, place, .. } = self;
        writeln!(out, "{file}: vector {place} {text}")
    }

    // After a record, of which so many answers agree or which is wrong.
    pub fn after<W: Write>(self, out: &mut W, record: Result<u64, Wrong>) -> io::Result<Run<'a>> {
        match record {
            Ok(agree) => Ok(self.counted(agree, 0)),
            Err(wrong) => {
                if self.disagree < MOST_LINES {
                    self.remark(out, wrong)?;
                }
                Ok(self.counted(0, 1))
            }
        }
    }

    // What is cut or too long counts as a record that disagrees; a failed read is returned.
    pub fn spoilt<W: Write>(self, out: &mut W, unread: Unread) -> io::Result<Run<'a>> {
        if let Unread::Failed(error) = unread {
            return Err(error);
        }
        self.remark(out, unread)?;
        Ok(self.counted(0, 1))
    }

    // Of a file that does not open.
    pub fn not_opened<W: Write>(self, out: &mut W) -> io::Result<Run<'a>> {
        let file = self.file;
        writeln!(out, "{file}: cannot be opened")?;
        Ok(self.counted(0, 1))
    }

    // How many disagreements got no line, where some did not, and the counts.
    pub fn summary<W: Write>(self, out: &mut W) -> io::Result<()> {
        let file = self.file;
        if self.disagree > MOST_LINES {
            let more = self.disagree - MOST_LINES;
            writeln!(out, "{file}: {more} more disagree")?;
        }
        self.counts(out)
    }

    // `name: 4000 agree`, and how many disagree where some do.
    pub fn counts<W: Write>(self, out: &mut W) -> io::Result<()> {
        let Run {
            file,
            agree,
            disagree,
            ..
        } = self;
        if disagree > 0 {
            writeln!(out, "{file}: {agree} agree, {disagree} disagree")
        } else {
            writeln!(out, "{file}: {agree} agree")
        }
    }
}
