//! Bits that stand in a target twice.

ghost use Rattle.std.specs.Prelude.{◌≡◌, [], IfOk, map};
ghost use Rattle.std.specs.List.{list_any};
ghost use Rattle.std.specs.Option.{option_map};
ghost use Rattle.rtl_tree.specs.TreeExpr.{identifier};
ghost use Rattle.rtl_tree.specs.TreeStmt.{target, target_row};
ghost use Rattle.elab_scope.specs.Faults.{after, refusal};
ghost use Rattle.elab_scope.specs.Names.{meanings};
ghost use Rattle.elab_scope.specs.Targets.{all_covered, all_twice_faults, bit_cover, cover_faults, covered, overlap, part_cover, target_breadth, target_faults, twice_faults, whole_cover, with_cover};

use crate::fault::{Cause, Fault};
use crate::judge::Judged;
use crate::known::Known;
use crate::names::Names;
use crate::rules::Writer;
use crate::selects::ends_of;
use crate::size::field_in;
use crate::targets::judge_parts;
use crate::widths::{Breadth, Field};
use rtl_const::evaluate::constant;
use rtl_const::fault::ConstFault;
use rtl_tree::tree::names::Name;
use rtl_tree::tree::stmt::Lvalue;
use std::alloc::Global;
use text_ground::memory::Memory;

/// Bits of a signal that a target writes, counted from its least significant.
#[derive(Clone, Copy, PartialEq, Eq, Debug)]
pub struct Cover {
    /// The number of the signal in the module.
    pub signal: u16,
    pub low: u8,
    pub count: u8,
}

impl Cover {
    /// Whether both have a bit in common.
    pub fn overlaps(self, other: Cover) -> bool
        ensures { result ≡ overlap self other }
    {
        let end = u16::from(self.low) + u16::from(self.count);
        let other_end = u16::from(other.low) + u16::from(other.count);
        self.signal == other.signal && u16::from(self.low) < other_end && u16::from(other.low) < end
    }
}

/// All bits of a signal.
pub fn whole_cover(known: Option<Known>) -> Option<Cover>
    ensures { result ≡ whole_cover known }
{
    match known {
        Some(
            Known::Signal {
                number,
                shape: Some(shape),
                ..
            },
        ) => Some(Cover {
            signal: number,
            low: 0,
            count: shape.width,
        }),
        _ => None,
    }
}

/// One bit of a signal, where it has it.
pub fn bit_cover(known: Option<Known>, index: Result<i64, ConstFault>) -> Option<Cover>
    ensures { result ≡ bit_cover known index }
{
    match (known, index) {
        (
            Some(
                Known::Signal {
                    number,
                    shape: Some(shape),
                    ..
                },
            ),
            Ok(index),
        ) => {
            let low = i64::from(shape.low);
            if low <= index && index < low + i64::from(shape.width) {
                Some(Cover {
                    signal: number,
                    low: (index - low) as u8,
                    count: 1,
                })
            } else {
                None
            }
        }
        _ => None,
    }
}

/// A part of a signal.
pub fn part_cover(known: Option<Known>, field: Option<Field>) -> Option<Cover>
    ensures { result ≡ part_cover known field }
{
    match (known, field) {
        (Some(Known::Signal { number, .. }), Some(field)) => Some(Cover {
            signal: number,
            low: field.low,
            count: field.width,
        }),
        _ => None,
    }
}

/// The bits that are written so far, and the fault that is told.
#[derive(Drop)]
struct Covered<'a> {
    covers: Vec<Cover>,
    best: Option<Fault<'a>>,
}

/// Whether a bit stands in one of some others too.
pub fn is_covered(cover: Cover, earlier: &[Cover]) -> bool
    ensures { result ≡ list_any (overlap cover) earlier.now }
{
    earlier.iter().any(|other| cover.overlaps(*other))
}

/// No part writes a bit that parts before it write.
fn judge_cover<'a>(
    name: &'a Name,
    cover: Option<Cover>,
    earlier: &[Cover],
    best: Option<Fault<'a>>,
) -> Option<Fault<'a>>
    ensures { option_map refusal result
        ≡ after (option_map refusal best.entry)
        (cover_faults (identifier name.now) earlier.now cover) }
{
    match cover {
        None => best,
        Some(cover) => {
            if is_covered(cover, earlier) {
                let cause = Cause::NotAssignable(&name.text);
                Fault::keep(best, Fault { at: name.at, cause })
            } else {
                best
            }
        }
    }
}

/// One part more.
fn add_part<'a>(
    name: &'a Name,
    cover: Option<Cover>,
    so_far: Covered<'a>,
) -> Result<Covered<'a>, Memory>
    ensures covers { IfOk result (λ all. all.covers.items
        ≡ with_cover so_far.entry.covers.items cover) }
    ensures best { IfOk result (λ all. option_map refusal all.best
        ≡ after (option_map refusal so_far.entry.best)
        (cover_faults (identifier name.now) so_far.entry.covers.items cover)) }
{
    let Covered { mut covers, best } = so_far;
    let best = judge_cover(name, cover, &covers, best);
    if let Some(cover) = cover {
        covers.push(cover)?;
    }
    Ok(Covered { covers, best })
}

/// All bits of a target.
#[cycle(cover_target)]
#[tactic(auto, using(crate::proofs::TargetViews::joined_covered, crate::proofs::TargetViews::joined_twice))]
fn cover_target<'a>(
    written: &'a Lvalue,
    names: &Names,
    so_far: Covered<'a>,
) -> Result<Covered<'a>, Memory>
    ensures covers { IfOk result (λ all. all.covers.items
        ≡ covered (meanings names.now) so_far.entry.covers.items (target written.now)) }
    ensures best { IfOk result (λ all. option_map refusal all.best
        ≡ after (option_map refusal so_far.entry.best)
        (twice_faults (meanings names.now) so_far.entry.covers.items (target written.now))) }
{
    match written {
        Lvalue::Whole(name) => add_part(name, whole_cover(names.find(&name.text)), so_far),
        Lvalue::Bit(name, index) => {
            let bits = bit_cover(names.find(&name.text), constant(index, names));
            add_part(name, bits, so_far)
        }
        Lvalue::Part(name, kind, first, second) => {
            let known = names.find(&name.text);
            let ends = ends_of(*kind, first, second, names);
            let field = field_in(known, ends.msb, ends.lsb);
            add_part(name, part_cover(known, field), so_far)
        }
        Lvalue::Concat(_, parts) => cover_all(parts, names, so_far),
    }
}

/// All bits of the parts of a target.
#[cycle(cover_target)]
#[tactic(auto, using(crate::proofs::Least::after_append))]
fn cover_all<'a>(
    parts: &'a [Lvalue],
    names: &Names,
    so_far: Covered<'a>,
) -> Result<Covered<'a>, Memory>
    ensures covers { IfOk result (λ all. all.covers.items
        ≡ all_covered (meanings names.now) so_far.entry.covers.items
        (target_row (map target parts.now))) }
    ensures best { IfOk result (λ all. option_map refusal all.best
        ≡ after (option_map refusal so_far.entry.best)
        (all_twice_faults (meanings names.now) so_far.entry.covers.items
        (target_row (map target parts.now)))) }
{
    let mut all = so_far;
    for part in parts {
        all = cover_target(part, names, all)?;
    }
    Ok(all)
}

/// The faults of a target, after `best`, and how many bits it has. It takes memory where bits may stand in it twice.
#[tactic(auto, using(crate::proofs::Least::after_append))]
pub fn judge_target<'a>(
    alloc: Global,
    by: Writer,
    written: &'a Lvalue,
    names: &Names,
    best: Option<Fault<'a>>,
) -> Result<Judged<'a>, Memory>
    ensures breadth { IfOk result (λ judged. judged.breadth
        ≡ target_breadth (meanings names.now) (target written.now)) }
    ensures best { IfOk result (λ judged. option_map refusal judged.best
        ≡ after (option_map refusal best.entry)
        (target_faults by (meanings names.now) (target written.now))) }
{
    let judged = judge_parts(by, written, names, best);
    match (by, judged.breadth) {
        (Writer::Continuous, Breadth::Bits(_)) => {
            let none = Covered {
                covers: Vec::new(alloc),
                best: judged.best,
            };
            let all = cover_target(written, names, none)?;
            Ok(Judged {
                breadth: judged.breadth,
                best: all.best,
            })
        }
        _ => Ok(judged),
    }
}
