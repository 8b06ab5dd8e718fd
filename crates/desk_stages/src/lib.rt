//! The text of a large design: stages of registers, one behind another.
#![tactic(auto)]

ghost use Rattle.std.specs.Prelude.{◌≡◌, ◌≤◌, ◌++◌, vec_len, IfOk, OnOk};
ghost use Rattle.desk_stages.specs.Stages.{stage_lines, stages_text, text_with_number};

use itoa::Buffer;
use std::alloc::Global;
use text_ground::memory::Memory;

/// The most stages of a design.
pub const MOST_STAGES: u32 = 1000;

/// The name of the module.
pub const TOP: &str = "top";

// The lines before the stages.
const HEAD: &[u8] =
    b"module top(input clk, rst_n, input [31:0] d, output [31:0] q);\nwire [31:0] s0;\nassign s0 = d;\n";

// What stands between the names of a register in its declaration and in its block.
const BLOCK: &[u8] = b";\nalways @(posedge clk or negedge rst_n) if (!rst_n) s";

// A text with a number behind it.
fn push_numbered(out: &mut Vec<u8>, text: &[u8], number: u32) -> Result<(), Memory>
    ensures { OnOk result (out.new.items ≡ out.old.items ++ text_with_number text.now number) }
{
    let mut digits = Buffer::new();
    out.extend_from_slice(text)?;
    out.extend_from_slice(digits.format(number).as_bytes())?;
    Ok(())
}

// The register of a stage, and the block that writes it.
fn push_stage(out: &mut Vec<u8>, stage: u32) -> Result<(), Memory>
    requires { 1 ≤ stage }
    ensures { OnOk result (out.new.items ≡ out.old.items ++ stage_lines stage) }
{
    push_numbered(out, b"reg [31:0] s", stage)?;
    push_numbered(out, BLOCK, stage)?;
    push_numbered(out, b" <= 32'd0; else s", stage)?;
    push_numbered(out, b" <= s", stage - 1)?;
    push_numbered(out, b" + 32'd", stage)?;
    out.extend_from_slice(b";\n")?;
    Ok(())
}

/// The text of a module of so many stages, each of which stores what the one before it holds and its own number more, behind
/// one clock and one reset.
///
/// Fails where memory runs out.
pub fn stages_text(alloc: Global, count: u32) -> Result<Vec<u8>, Memory>
    requires { count ≤ MOST_STAGES }
    ensures text { IfOk result (λ text. text.items ≡ stages_text count) }
    ensures short { IfOk result (λ text. vec_len text ≤ 1048576) }
{
    let mut out = Vec::new(alloc);
    out.extend_from_slice(HEAD)?;
    for stage in 1..count + 1 {
        push_stage(&mut out, stage)?;
    }
    push_numbered(&mut out, b"assign q = s", count)?;
    out.extend_from_slice(b";\nendmodule\n")?;
    Ok(out)
}
