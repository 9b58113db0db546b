// Vector files (rust/oracle/VECTORS.md): records read from an open file, what a file has shown so far, and the lines on it.
#![tactic(auto)]

pub mod ids;
pub mod run;

ghost use Rattle.std.specs.Prelude.{◌≡◌, ◌≤◌, IfOk, IfSome, None};
ghost use Rattle.std.specs.Io.KnownBytes.{IsAtEnd};
ghost use Rattle.vectors_files.specs.Records.{ReadsFront, ReadsRecord};

use std::io;
use std::io::Read;
use thiserror::Error;

const MOST_WORDS: u64 = 512;

// A record's id and the bytes of its words.
#[derive(Clone, Copy)]
pub struct Record<'a> {
    // the file's number: one that is no id is told of after its words were read
    pub id: u64,
    pub words: &'a [u8],
}

// A record's id and how many bytes its words have.
#[derive(Clone, Copy)]
pub struct Head {
    // as in Record
    pub id: u64,
    pub size: usize,
}

// Why a record cannot be read.
#[derive(Clone, Copy, Debug, Error)]
pub enum Unread {
    #[error("is cut short")]
    Cut,
    #[error("is too long: {0} words")]
    TooLong(u64),
    #[error(transparent)]
    Failed(#[from] io::Error),
}

// Reads the head of the next record, if there is one.
pub fn read_head<R: Read>(reader: &mut R) -> Result<Option<Head>, Unread>
    ensures size { IfOk result (λ next. IfSome next (λ head. head.size ≤ 4096)) }
    ensures front { IfOk result (λ next. IfSome next (λ head. ReadsFront (R.remaining reader.old) (R.remaining reader.new) head.id head.size)) }
    ensures end { IfOk result (λ next. next ≡ None → IsAtEnd (R.remaining reader.old)) }
{
    // an array, as there is no heap
    let mut head = [0u8; 4];
    let got = reading::read_full(reader, &mut head)?;
    if got == 0 {
        return Ok(None);
    }
    if got < 4 {
        return Err(Unread::Cut);
    }
    let front = codec::read_be(&head, 0, 4);
    let words = front % 65536;
    if words > MOST_WORDS {
        return Err(Unread::TooLong(words));
    }
    Ok(Some(Head {
        id: front / 65536,
        size: 8 * (words as usize),
    }))
}

// Reads the next record, if there is one, its words into `space`.
pub fn next_record<'a, R: Read>(
    reader: &mut R,
    space: &'a mut [u8; 4096],
) -> Result<Option<Record<'a>>, Unread>
    ensures words { IfOk result (λ next. IfSome next (λ found. ReadsRecord (R.remaining reader.old) (R.remaining reader.new) found.id found.words.now)) }
    ensures end { IfOk result (λ next. next ≡ None → IsAtEnd (R.remaining reader.old)) }
{
    let Some(head) = read_head(reader)? else {
        return Ok(None);
    };
    let words = &mut space[..head.size];
    let got = reading::read_full(reader, words)?;
    if got < words.len() {
        return Err(Unread::Cut);
    }
    Ok(Some(Record { id: head.id, words }))
}
