// The command `generate N`.

ghost use Rattle.std.specs.Prelude.{◌≡◌, ◌≢◌, ◌≤◌, Err, IfOk};
ghost use Rattle.source_file.specs.SourceFiles.{AreShort};
ghost use Rattle.rtl_flat.specs.Flats.{flat_in};
ghost use Rattle.desk_top.specs.Delivery.{IsWork};
ghost use Rattle.desk_top.specs.Outcome.{IsCounted, IsGenerated, generated_sources};

use crate::deliver::{Ending, Stop, Work};
use crate::sign::refuse;
use desk_build::{Built, build};
use desk_report::stages_report;
use desk_stages::{MOST_STAGES, TOP, stages_text};
use desk_verdict::sign_off::rule::rule;
use rtl_flat::design::Design;
use source_file::SourceFile;
use std::alloc::Global;
use text_ground::memory::Memory;

/// Rules the design of a generated text, and writes how large it is and what was found.
pub fn generate(alloc: Global, stages: u32) -> Result<Work, Stop>
    requires { stages ≤ MOST_STAGES }
    ensures work { IsWork (IsGenerated stages) result }
    ensures read { result ≢ Err Stop.Unread }
{
    let files = stages_files(alloc, stages)?;
    match build(alloc, TOP, &files) {
        Ok(Built::Designed(design)) => count(alloc, stages, &design),
        Ok(Built::Refused(line)) => refuse(line),
        Err(Memory) => Err(Stop::Memory),
    }
}

// The generated text as the one file, which has this name where it is told.
fn stages_files(alloc: Global, stages: u32) -> Result<Vec<SourceFile>, Memory>
    requires { stages ≤ MOST_STAGES }
    ensures files { IfOk result (λ files. files.items ≡ generated_sources stages) }
    ensures short { IfOk result (λ files. AreShort files.items) }
{
    let text = stages_text(alloc, stages)?;
    let mut files = Vec::new(alloc);
    files.push(SourceFile::new(alloc, b"generated", text)?)?;
    Ok(files)
}

// How large a design is, and what was found.
fn count(alloc: Global, stages: u32, design: &Design) -> Result<Work, Stop>
    ensures work { IsWork (IsCounted stages (flat_in design.now)) result }
    ensures read { result ≢ Err Stop.Unread }
{
    let ruling = rule(alloc, design)?;
    let bytes = stages_report(alloc, stages, design.processes.len(), &ruling)?;
    Ok(Work {
        ending: Ending::Counted,
        bytes,
    })
}
