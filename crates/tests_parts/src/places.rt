//! Places in texts, by lines and columns.

ghost use Rattle.std.specs.Prelude.{◌≡◌, ◌≤◌, IfOk, OnOk, length};
ghost use Rattle.source_file.specs.SourceFiles.{AreShort};

use crate::stop::Stop;
use desk_places::lines::LineTable;
use desk_places::sources::Sources;
use source_file::SourceFile;
use std::alloc::Global;
use tests_reader::File;
use text_ground::text::{MAX_BYTES, Spot};

/// The line and the column of each place in a text.
pub fn positions(alloc: Global, places: &[String], text: &[u8]) -> Result<Vec<u8>, Stop> {
    if text.len() > MAX_BYTES {
        return Err(Stop::TooLong);
    }
    let table = LineTable::new(alloc, text)?;
    let mut out = Vec::new(alloc);
    for place in places {
        let Ok(at) = place.parse::<u32>() else {
            return Err(Stop::NoCall);
        };
        let found = table.position(at);
        let line = format!(in alloc; "{at} -> {}:{}\n", found.line, found.column)?;
        out.extend_from_slice(line.as_bytes())?;
    }
    Ok(out)
}

/// One file more.
fn add(alloc: Global, sources: &mut Vec<SourceFile>, file: &File) -> Result<(), Stop>
    requires { AreShort sources.old.items }
    ensures { OnOk result (AreShort sources.new.items) }
{
    if file.text.len() > MAX_BYTES {
        return Err(Stop::TooLong);
    }
    let text = Vec::from_slice(alloc, &file.text)?;
    sources.push(SourceFile::new(alloc, file.name.as_bytes(), text)?)?;
    Ok(())
}

fn sources_of(alloc: Global, files: &[File]) -> Result<Vec<SourceFile>, Stop>
    ensures { IfOk result (λ sources. AreShort sources.items) }
{
    let mut sources = Vec::new(alloc);
    for file in files {
        add(alloc, &mut sources, file)?;
    }
    Ok(sources)
}

/// The place that is `FILE:AT`.
fn spot(word: &str) -> Option<Spot> {
    let (file, at) = word.split_once(":")?;
    Some(Spot {
        file: file.parse::<u32>().ok()?,
        at: at.parse::<u32>().ok()?,
    })
}

/// How the places in files are written.
pub fn spots(alloc: Global, files: &[File], words: &[String]) -> Result<Vec<u8>, Stop> {
    let files = sources_of(alloc, files)?;
    let sources = Sources::new(alloc, &files)?;
    let mut out = Vec::new(alloc);
    for word in words {
        let Some(spot) = spot(word) else {
            return Err(Stop::NoCall);
        };
        out.extend_from_slice(format!(in alloc; "{word} -> at ")?.as_bytes())?;
        sources.push_place(&mut out, spot)?;
        out.push(b'\n')?;
    }
    Ok(out)
}
