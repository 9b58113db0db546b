// Replays the vector files that its arguments name (rust/oracle/VECTORS.md) and compares every answer bit for bit.
#![tactic(auto)]

mod calls;

use std::io::{Read, Write};
use std::{env, fs, io};
use vectors_files::Record;
use vectors_files::ids::Id;
use vectors_files::run::{Run, Wrong};
use vectors_lists::Held;
use vectors_words::Words;

// How many answers of a record agree: the start of a list has none to compare.
fn compared(record: Record<'_>, held: &mut Held) -> Result<u64, Wrong> {
    let id = Id::try_from(record.id)?;
    let words = Words(record.words);
    let agrees = match id {
        Id::Start => {
            *held = vectors_lists::start(words).unwrap_or(held.unstarted());
            return Ok(0);
        }
        Id::Call => calls::call(words, held),
        _ => vectors_replays::replay_number(record.id, words),
    };
    if agrees {
        Ok(1)
    } else {
        Err(Wrong::Disagrees(id))
    }
}

// All records of a reader. Nothing says that a file ends, so the turns are counted, to a number that no file reaches.
fn records<'a, R: Read, W: Write>(
    reader: &mut R,
    out: &mut W,
    file: &'a str,
) -> io::Result<Run<'a>> {
    let mut run = Run::new(file);
    let mut held = Held::default();
    // an array, as there is no heap: the longest record
    let mut space = [0u8; 4096];
    for _ in 0..u64::MAX {
        match vectors_files::next_record(reader, &mut space) {
            Ok(Some(record)) => run = run.after(out, compared(record, &mut held))?,
            Ok(None) => break,
            Err(unread) => return run.spoilt(out, unread),
        }
    }
    Ok(run)
}

// The file of this name.
fn replay_file<'a, W: Write>(rt: &HostRuntime, out: &mut W, path: &'a str) -> io::Result<Run<'a>> {
    match fs::open(rt, path) {
        Ok(mut opened) => {
            let run = records(&mut opened, out, path)?;
            run.summary(out)?;
            Ok(run)
        }
        Err(_) => Run::new(path).not_opened(out),
    }
}

fn main(rt: HostRuntime) -> io::Result<()> {
    let mut out = rt.stdout();
    let mut total = Run::new("total");
    for path in env::args(&rt)?.skip(1) {
        let run = replay_file(&rt, &mut out, path.as_str())?;
        total = total.with(run);
    }
    total.counts(&mut out)
}
