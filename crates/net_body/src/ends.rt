//! The end of a body: what nonblocking assignments gave becomes the digits. Only signals that its
//! targets name are looked at, since of all others it wrote nothing.

ghost use Rattle.std.specs.Prelude.{◌≡◌, ◌<◌, length, map, true};
ghost use Rattle.std.specs.List.{All};
ghost use Rattle.rtl_flat.specs.Process.{action, body_of, piece};
ghost use Rattle.rtl_flat.specs.Value.{store};
ghost use Rattle.rtl_flat.specs.WellFormed.{IsAction, IsBody, IsOtherwise};
ghost use Rattle.rtl_scan.specs.Bodies.{branches_of, other_of};
ghost use Rattle.net_body.specs.Bodies.{AreBodies};
ghost use Rattle.net_body.specs.Ends.{AreBeside, ending, ending_after, ending_after_one};
ghost use Rattle.net_body.specs.Marks.{AreKept};
ghost use Rattle.net_body.specs.Named.{action_signals, body_signals, branch_signals, other_signals, target_signals};

use crate::bits::merged;
use crate::mark::Mark;
use rtl_bits::Vec4;
use rtl_flat::act::{Act, CaseItem, TargetPart};
use rtl_flat::expr::SigId;
use rtl_flat::signal::Signal;

/// Gives a signal its digits at the end. Where these are put aside, it has those from before again.
fn end_one(
    signals: &[Signal],
    signal: SigId,
    aside: bool,
    before: &[Vec4],
    numbers: &mut [Vec4],
    marks: &mut [Mark],
    after: &mut [Vec4],
)
    requires there { signal.0 < length signals.now }
    requires kept { AreKept signals.now numbers.old marks.old }
    requires beside { aside ≡ true → AreBeside signals.now before.now after.old }
    ensures ends { ending numbers.new marks.new after.new
        ≡ ending_after_one aside (store before.now)
        (ending numbers.old marks.old after.old) signal.0 }
    ensures kept { AreKept signals.now numbers.new marks.new }
    ensures beside { aside ≡ true → AreBeside signals.now before.now after.new }
{
    let place = signal.0 as usize;
    let mark = marks[place];
    let number = numbers[place];
    let ran = merged(mark.has_next, mark.next, number);
    marks[place] = Mark::clear(mark.next);
    if aside {
        let old = before[place];
        let kept = after[place];
        after[place] = kept.xor(old.xor(ran));
        numbers[place] = old;
    } else {
        numbers[place] = ran;
    }
}

/// Ends the signals of a target.
fn end_parts(
    signals: &[Signal],
    parts: &[TargetPart],
    aside: bool,
    before: &[Vec4],
    numbers: &mut [Vec4],
    marks: &mut [Mark],
    after: &mut [Vec4],
)
    requires there { All (λ part. part.signal.0 < length signals.now) parts.now }
    requires kept { AreKept signals.now numbers.old marks.old }
    requires beside { aside ≡ true → AreBeside signals.now before.now after.old }
    ensures ends { ending numbers.new marks.new after.new
        ≡ ending_after aside (store before.now) (ending numbers.old marks.old after.old)
        (target_signals (map piece parts.now)) }
    ensures kept { AreKept signals.now numbers.new marks.new }
    ensures beside { aside ≡ true → AreBeside signals.now before.now after.new }
{
    for part in parts {
        end_one(signals, part.signal, aside, before, numbers, marks, after);
    }
}

/// Ends the signals that targets of statements name.
#[cycle(ends)]
pub(crate) fn end_all(
    signals: &[Signal],
    acts: &[Act],
    aside: bool,
    before: &[Vec4],
    numbers: &mut [Vec4],
    marks: &mut [Mark],
    after: &mut [Vec4],
)
    requires body { IsBody signals.now (body_of (map action acts.now)) }
    requires kept { AreKept signals.now numbers.old marks.old }
    requires beside { aside ≡ true → AreBeside signals.now before.now after.old }
    ensures ends { ending numbers.new marks.new after.new
        ≡ ending_after aside (store before.now) (ending numbers.old marks.old after.old)
        (body_signals (body_of (map action acts.now))) }
    ensures kept { AreKept signals.now numbers.new marks.new }
    ensures beside { aside ≡ true → AreBeside signals.now before.now after.new }
{
    for act in acts {
        end_act(signals, act, aside, before, numbers, marks, after);
    }
}

/// Ends the signals that targets of a statement name.
#[cycle(ends)]
fn end_act(
    signals: &[Signal],
    act: &Act,
    aside: bool,
    before: &[Vec4],
    numbers: &mut [Vec4],
    marks: &mut [Mark],
    after: &mut [Vec4],
)
    requires act { IsAction signals.now (action act.now) }
    requires kept { AreKept signals.now numbers.old marks.old }
    requires beside { aside ≡ true → AreBeside signals.now before.now after.old }
    ensures ends { ending numbers.new marks.new after.new
        ≡ ending_after aside (store before.now) (ending numbers.old marks.old after.old)
        (action_signals (action act.now)) }
    ensures kept { AreKept signals.now numbers.new marks.new }
    ensures beside { aside ≡ true → AreBeside signals.now before.now after.new }
{
    match act {
        Act::Set {
            target,
            value: _,
            delayed: _,
            spot: _,
        } => end_parts(signals, &target.parts, aside, before, numbers, marks, after),
        Act::If {
            test: _,
            yes,
            no,
            spot: _,
        } => {
            end_other(signals, no, aside, before, numbers, marks, after);
            end_all(signals, yes, aside, before, numbers, marks, after);
        }
        Act::Case {
            kind: _,
            full: _,
            parallel: _,
            selector: _,
            items,
            fallback,
            spot: _,
        } => {
            end_other(signals, fallback, aside, before, numbers, marks, after);
            end_items(signals, items, aside, before, numbers, marks, after);
        }
        Act::Block(body) => end_all(signals, body, aside, before, numbers, marks, after),
    }
}

/// Ends the signals that a body names which may be left out.
#[cycle(ends)]
fn end_other(
    signals: &[Signal],
    body: &Option<Vec<Act>>,
    aside: bool,
    before: &[Vec4],
    numbers: &mut [Vec4],
    marks: &mut [Mark],
    after: &mut [Vec4],
)
    requires body { IsOtherwise signals.now (other_of body.now) }
    requires kept { AreKept signals.now numbers.old marks.old }
    requires beside { aside ≡ true → AreBeside signals.now before.now after.old }
    ensures ends { ending numbers.new marks.new after.new
        ≡ ending_after aside (store before.now) (ending numbers.old marks.old after.old)
        (other_signals (other_of body.now)) }
    ensures kept { AreKept signals.now numbers.new marks.new }
    ensures beside { aside ≡ true → AreBeside signals.now before.now after.new }
{
    match body {
        Some(body) => end_all(signals, body, aside, before, numbers, marks, after),
        None => {}
    }
}

/// Ends the signals that the items of a case name.
#[cycle(ends)]
fn end_items(
    signals: &[Signal],
    items: &[CaseItem],
    aside: bool,
    before: &[Vec4],
    numbers: &mut [Vec4],
    marks: &mut [Mark],
    after: &mut [Vec4],
)
    requires bodies { AreBodies signals.now (branches_of items.now) }
    requires kept { AreKept signals.now numbers.old marks.old }
    requires beside { aside ≡ true → AreBeside signals.now before.now after.old }
    ensures ends { ending numbers.new marks.new after.new
        ≡ ending_after aside (store before.now) (ending numbers.old marks.old after.old)
        (branch_signals (branches_of items.now)) }
    ensures kept { AreKept signals.now numbers.new marks.new }
    ensures beside { aside ≡ true → AreBeside signals.now before.now after.new }
{
    for item in items {
        end_all(signals, &item.body, aside, before, numbers, marks, after);
    }
}
