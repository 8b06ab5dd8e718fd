//! The values of the signals of a design, from one time of a dump to the next.

ghost use Rattle.std.specs.Prelude.{ℕ, ◌≡◌, ◌<◌, ◌≤◌, ◌||◌, ◌&&◌, ◌==◌, IfOk, OnOk, cond, length, map, take, drop, replicate};
ghost use Rattle.std.specs.List.{All, slice_get};
ghost use Rattle.rtl_bits.specs.declared.Bit.TheVariants.{X};
ghost use Rattle.rtl_flat.specs.declared.signal.Signal.{Signal};
ghost use Rattle.rtl_flat.specs.Signs.{width_in};
ghost use Rattle.rtl_flat.specs.Value.{store};
ghost use Rattle.vcd_signals.specs.Recording.{AreFollowed, has, is_code, row, value_after};

use crate::keys::codes;
use rtl_bits::{Bit, Vec4};
use rtl_flat::design::Design;
use rtl_flat::expr::SigId;
use rtl_flat::signal::Signal;
use std::alloc::Global;
use text_ground::memory::Memory;
use vcd_read::{Dump, filled};

/// The values of the signals of a design, as a dump records them.
#[derive(Drop)]
pub struct Recorder<'d> {
    design: &'d Design,
    scope: &'d [u8],
    dump: &'d Dump,
    /// The code of each signal that is recorded.
    codes: Vec<Option<u32>>,
    /// The signals of each code.
    followers: Vec<Vec<SigId>>,
    /// The value of each signal that is recorded, behind some changes.
    values: Vec<Vec4>,
    /// How many changes these are.
    applied: usize,
    /// The bits of all other changes.
    rest: &'d [Bit],
}

/// Gives a table a row at a place.
fn grow(alloc: Global, table: &mut Vec<Vec<SigId>>, place: usize) -> Result<(), Memory>
    ensures rows { OnOk result ((code : ℕ) → row table.new.items code ≡ row table.old.items code) }
    ensures long { OnOk result (place < length table.new.items) }
{
    while table.len() <= place {
        table.push(Vec::new(alloc))?;
    }
    Ok(())
}

/// Puts a signal into the row of a code.
fn follow(
    alloc: Global,
    table: &mut Vec<Vec<SigId>>,
    code: u32,
    signal: SigId,
) -> Result<(), Memory>
    ensures { OnOk result ((other i : ℕ) → has (row table.new.items other) i
        ≡ (has (row table.old.items other) i || ((other == code) && (signal.0 == i)))) }
{
    let place = code as usize;
    grow(alloc, table, place)?;
    table[place].push(signal)?;
    Ok(())
}

/// The signals of each code.
fn followers(alloc: Global, codes: &[Option<u32>]) -> Result<Vec<Vec<SigId>>, Memory>
    requires { length codes.now ≤ 20000 }
    ensures { IfOk result (λ table. AreFollowed table.items codes.now (length codes.now)) }
{
    let mut table = Vec::new(alloc);
    for (number, code) in codes.iter().enumerate() {
        if let Some(code) = code {
            follow(alloc, &mut table, *code, SigId(number as u32))?;
        }
    }
    Ok(table)
}

/// Values of which no bit is known.
fn unknown(alloc: Global, design: &Design) -> Result<Vec<Vec4>, Memory>
    ensures { IfOk result (λ values. values.items
        ≡ map (λ (signal : Signal). replicate signal.width X) design.now.signals.items) }
{
    let mut values = Vec::new(alloc);
    for signal in &design.signals {
        values.push(Vec4::filled(signal.width, Bit::X))?;
    }
    Ok(values)
}

/// Forgets what is known of the values.
fn forget(values: &mut [Vec4], design: &Design)
    requires { length values.old ≡ length design.now.signals.items }
    ensures { values.new ≡ map (λ (signal : Signal). replicate signal.width X) design.now.signals.items }
{
    for place in 0..values.len() {
        values[place] = Vec4::filled(design.signals[place].width, Bit::X);
    }
}

/// So many bits, and those behind them.
fn split(bits: &[Bit], count: usize) -> (&[Bit], &[Bit])
    ensures first { result.0.now ≡ take count bits.now }
    ensures others { result.1.now ≡ drop count bits.now }
{
    if count <= bits.len() {
        (&bits[..count], &bits[count..])
    } else {
        (bits, &[])
    }
}

/// Whether a signal has a code.
fn has_code(codes: &[Option<u32>], signal: SigId, code: u32) -> bool
    ensures { result ≡ is_code (slice_get codes.now signal.0) code }
{
    match codes.get(signal.0 as usize) {
        Some(Some(own)) => *own == code,
        _ => false,
    }
}

/// The value of a signal behind a change of a code, where it has that code.
fn set(
    values: &mut [Vec4],
    codes: &[Option<u32>],
    signals: &[Signal],
    signal: SigId,
    code: u32,
    bits: &[Bit],
)
    requires values { length values.old ≡ length signals.now }
    requires codes { length codes.now ≡ length signals.now }
    requires narrow { All (λ (one : Signal). one.width ≤ 128) signals.now }
    ensures { (i : ℕ) → store values.new i
        ≡ cond (signal.0 == i) (value_after (slice_get codes.now i) (width_in signals.now i)
        (record { code = code; bits = bits.now }) (store values.old i)) (store values.old i) }
{
    if !has_code(codes, signal, code) {
        return;
    }
    let place = signal.0 as usize;
    if let Some(value) = filled(signals[place].width, bits) {
        values[place] = value;
    }
}

/// The values of some signals behind a change of a code, where they have that code.
fn set_all(
    values: &mut [Vec4],
    codes: &[Option<u32>],
    signals: &[Signal],
    followers: &[SigId],
    code: u32,
    bits: &[Bit],
)
    requires values { length values.old ≡ length signals.now }
    requires codes { length codes.now ≡ length signals.now }
    requires narrow { All (λ (one : Signal). one.width ≤ 128) signals.now }
    ensures { (i : ℕ) → store values.new i
        ≡ cond (has followers.now i) (value_after (slice_get codes.now i) (width_in signals.now i)
        (record { code = code; bits = bits.now }) (store values.old i)) (store values.old i) }
{
    for signal in followers {
        set(values, codes, signals, *signal, code, bits);
    }
}

/// The values of all signals behind a change.
fn apply(
    values: &mut [Vec4],
    codes: &[Option<u32>],
    design: &Design,
    table: &[Vec<SigId>],
    code: u32,
    bits: &[Bit],
)
    requires values { length values.old ≡ length design.now.signals.items }
    requires codes { length codes.now ≡ length design.now.signals.items }
    requires followed { AreFollowed table.now codes.now (length codes.now) }
    ensures { (i : ℕ) → store values.new i
        ≡ value_after (slice_get codes.now i) (width_in design.now.signals.items i)
        (record { code = code; bits = bits.now }) (store values.old i) }
{
    let place = code as usize;
    if place < table.len() {
        set_all(values, codes, &design.signals, &table[place], code, bits);
    }
}

impl<'d> Recorder<'d> {
    ghost use Rattle.std.specs.Prelude.{◌≡◌, ◌<◌, ◌+◌, IfOk, IfSome, Some, drop, length, min};
    ghost use Rattle.std.specs.List.{slice_get};
    ghost use Rattle.std.specs.Option.{is_some, option_flatten};
    ghost use Rattle.rtl_flat.specs.Flats.{widths};
    ghost use Rattle.vcd_read.specs.Frames.{until};
    ghost use Rattle.vcd_signals.specs.Recording.{IsAt, IsRecorder, IsSame, flat_of, kept, sights_of, text_of};
    ghost use Rattle.vcd_signals.specs.Signals.{Sight, is_recorded};

    /// The signals of a design whose top a dump has in a scope, before its first change.
    ///
    /// Fails where memory runs out.
    pub fn new(
        alloc: Global,
        design: &'d Design,
        scope: &'d [u8],
        dump: &'d Dump,
    ) -> Result<Recorder<'d>, Memory>
        ensures recorder { IfOk result IsRecorder }
        ensures design { IfOk result (λ made. made.design.now ≡ design.now) }
        ensures scope { IfOk result (λ made. made.scope.now ≡ scope.now) }
        ensures text { IfOk result (λ made. made.dump.now ≡ dump.now) }
    {
        let codes = codes(alloc, design, scope, dump)?;
        let followers = followers(alloc, &codes)?;
        let values = unknown(alloc, design)?;
        Ok(Recorder {
            design,
            scope,
            dump,
            codes,
            followers,
            values,
            applied: 0,
            rest: dump.bits.as_slice(),
        })
    }

    fn code(&self, signal: SigId) -> Option<u32>
        ensures { result ≡ option_flatten (slice_get self.now.codes.items signal.0) }
    {
        self.codes.get(signal.0 as usize).copied().flatten()
    }

    /// Whether a signal is recorded.
    pub fn is_recorded(&self, signal: SigId) -> bool
        requires { IsRecorder self.now }
        ensures { result ≡ is_recorded (flat_of self.now) self.now.scope.now (text_of self.now) signal.0 }
    {
        self.code(signal).is_some()
    }

    fn kept(&self, signal: SigId) -> Option<Vec4>
        requires { IsRecorder self.now }
        ensures { result ≡ kept self.now signal.0 }
    {
        let _code = self.code(signal)?;
        self.values.get(signal.0 as usize).copied()
    }

    /// The value of a signal, if it is recorded.
    pub fn value(&self, signal: SigId) -> Option<Vec4>
        requires { IsRecorder self.now }
        ensures value { result ≡ kept self.now signal.0 }
        ensures wide { IfSome result (λ value. length value ≡ widths (flat_of self.now) signal.0) }
        ensures known { is_some result ≡ is_recorded (flat_of self.now) self.now.scope.now
            (text_of self.now) signal.0 }
    {
        self.kept(signal)
    }

    /// How many times there are.
    pub fn count(&self) -> usize
        ensures { result ≡ length (sights_of self.now) }
    {
        self.dump.frames.len()
    }

    /// A time.
    pub fn time(&self, frame: usize) -> u64
        requires { frame < length (sights_of self.now) }
        ensures { (sight : Sight) → slice_get (sights_of self.now) frame ≡ Some sight
            → result ≡ sight.time }
    {
        self.dump.frames[frame].time
    }

    /// All changes are still to come.
    fn rewind(&mut self)
        requires { IsRecorder self.old }
        ensures recorder { IsRecorder self.new }
        ensures same { IsSame self.old self.new }
        ensures applied { self.new.applied ≡ 0 }
    {
        forget(&mut self.values, self.design);
        self.applied = 0;
        self.rest = self.dump.bits.as_slice();
    }

    /// Takes the next change.
    fn take(&mut self)
        requires recorder { IsRecorder self.old }
        requires left { self.old.applied < length self.old.dump.now.changes.items }
        ensures recorder { IsRecorder self.new }
        ensures same { IsSame self.old self.new }
        ensures applied { self.new.applied ≡ self.old.applied + 1 }
    {
        let change = self.dump.changes[self.applied];
        let (bits, rest) = split(self.rest, change.bits as usize);
        apply(
            &mut self.values,
            &self.codes,
            self.design,
            &self.followers,
            change.code,
            bits,
        );
        self.applied += 1;
        self.rest = rest;
    }

    /// How many changes stand before the time behind this one.
    fn until(&self, frame: usize) -> usize
        requires { frame < length self.now.dump.now.frames.items }
        ensures { let changes = self.now.dump.now.changes.items in
            result ≡ min (until (length changes) (drop (frame + 1) self.now.dump.now.frames.items)) (length changes) }
    {
        let all = self.dump.changes.len();
        match self.dump.frames.get(frame + 1) {
            Some(next) => next.before.min(all),
            None => all,
        }
    }

    /// Goes to a time, to what the changes up to the next one make of the values.
    pub fn go_to(&mut self, frame: usize)
        requires recorder { IsRecorder self.old }
        requires there { frame < length (sights_of self.old) }
        ensures at { (sight : Sight) → slice_get (sights_of self.old) frame ≡ Some sight
            → IsAt self.new sight }
        ensures same { IsSame self.old self.new }
    {
        let until = self.until(frame);
        if until < self.applied {
            self.rewind();
        }
        while self.applied < until {
            self.take();
        }
    }
}
