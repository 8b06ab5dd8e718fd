//! Which variables of a dump record the signals of a design.

ghost use Rattle.std.specs.Prelude.{ℕ, List, ◌≡◌, ◌++◌, [], IfOk, if◌then◌else◌, map};
ghost use Rattle.std.specs.Str.{bytes_eq};
ghost use Rattle.name_map.specs.Values.{values_of};
ghost use Rattle.rtl_flat.specs.declared.signal.Signal.{Signal};
ghost use Rattle.vcd_read.specs.Frames.{variables, variables_in};
ghost use Rattle.vcd_read.specs.Reading.{dump_of};
ghost use Rattle.vcd_signals.specs.Keys.{AreFirst, AreWanted, entered, first_code, key, signal_key};
ghost use Rattle.vcd_signals.specs.Signals.{below};

use name_map::NameMap;
use rtl_flat::design::Design;
use rtl_flat::signal::Signal;
use std::alloc::Global;
use text_ground::memory::Memory;
use text_ground::text::Text;
use vcd_read::{Dump, Entry, Variable};

/// What stands between two names of a path.
const DOT: u8 = b'.';

/// A walk over what a dump declares.
#[derive(Drop)]
struct Walk {
    alloc: Global,
    /// What every path begins with here.
    prefix: Vec<u8>,
    /// Where what each scope adds to it begins.
    ends: Vec<usize>,
    /// The keys of signals, each with the code of the first variable that has it.
    known: NameMap<Option<u32>>,
}

/// A path with a width.
fn key(alloc: Global, front: &[u8], back: &[u8], width: u8) -> Result<Text, Memory>
    ensures { IfOk result (λ made. made ≡ key (front.now ++ back.now) width) }
{
    let mut path = Vec::from_slice(alloc, front)?;
    path.extend_from_slice(back)?;
    path.push(width)?;
    Ok(Text::from_vec(path))
}

/// A path without the name of the top.
fn below(path: &[u8]) -> &[u8]
    ensures { result.now ≡ below path.now }
{
    let mut rest = path;
    while let Some((byte, behind)) = rest.split_first() {
        rest = behind;
        if *byte == DOT {
            return rest;
        }
    }
    rest
}

/// The key of a signal, where this is what its path begins with in the dump.
fn signal_key(alloc: Global, scope: &[u8], signal: &Signal) -> Result<Text, Memory>
    ensures { IfOk result (λ made. made ≡ signal_key scope.now signal.now) }
{
    let mut path = Vec::from_slice(alloc, scope)?;
    path.push(DOT)?;
    key(alloc, &path, below(signal.path.as_bytes()), signal.width)
}

/// Notes the code of a variable with this key, where it is the first one that is wanted.
fn note_code(known: &mut NameMap<Option<u32>>, key: &Text, code: u32)
    ensures { (wanted : List ℕ) → values_of known.new wanted
        ≡ (if bytes_eq key.now wanted then entered (values_of known.old wanted) code
        else values_of known.old wanted) }
{
    if let Some(None) = known.find(key) {
        known.replace(key, Some(code));
    }
}

impl Walk {
    ghost use Rattle.std.specs.Prelude.{ℕ, List, ◌≡◌, [], ◌∷◌, OnOk};
    ghost use Rattle.name_map.specs.Values.{values_of};
    ghost use Rattle.vcd_read.specs.Frames.{outside, variable_in};
    ghost use Rattle.vcd_signals.specs.Keys.{IsIn, declared_by, known_behind, scopes_behind};

    /// A scope begins.
    fn enter(&mut self, name: &Text) -> Result<(), Memory>
        ensures inside { (scopes : List (List ℕ)) → IsIn scopes self.old
            → OnOk result (IsIn (name.now ∷ scopes) self.new) }
        ensures known { OnOk result (values_of self.new.known ≡ values_of self.old.known) }
    {
        self.ends.push(self.prefix.len())?;
        self.prefix.extend_from_slice(name.as_bytes())?;
        self.prefix.push(DOT)?;
        Ok(())
    }

    /// The innermost scope ends.
    fn leave(&mut self)
        ensures inside { (scopes : List (List ℕ)) → IsIn scopes self.old
            → IsIn (outside scopes) self.new }
        ensures known { values_of self.new.known ≡ values_of self.old.known }
    {
        if let Some(end) = self.ends.pop() {
            self.prefix.truncate(end);
        }
    }

    /// A variable is declared.
    fn note(&mut self, variable: &Variable) -> Result<(), Memory>
        ensures inside { (scopes : List (List ℕ)) → IsIn scopes self.old
            → IsIn scopes self.new }
        ensures known { OnOk result ((scopes : List (List ℕ)) → IsIn scopes self.old
            → (wanted : List ℕ) → values_of self.new.known wanted
            ≡ known_behind wanted (variable_in scopes variable.now ∷ []) (values_of self.old.known wanted)) }
    {
        let key = key(
            self.alloc,
            &self.prefix,
            variable.name.as_bytes(),
            variable.width,
        )?;
        note_code(&mut self.known, &key, variable.code);
        Ok(())
    }

    /// One entry more.
    fn take(&mut self, entry: &Entry) -> Result<(), Memory>
        ensures inside { OnOk result ((scopes : List (List ℕ)) → IsIn scopes self.old
            → IsIn (scopes_behind scopes entry.now) self.new) }
        ensures known { OnOk result ((scopes : List (List ℕ)) → IsIn scopes self.old
            → (wanted : List ℕ) → values_of self.new.known wanted
            ≡ known_behind wanted (declared_by scopes entry.now) (values_of self.old.known wanted)) }
    {
        match entry {
            Entry::Scope(name) => self.enter(name),
            Entry::Upscope => {
                self.leave();
                Ok(())
            }
            Entry::Variable(variable) => self.note(variable),
        }
    }
}

/// The keys of signals; no variable is known yet.
fn wanted(alloc: Global, signals: &[Signal], scope: &[u8]) -> Result<NameMap<Option<u32>>, Memory>
    ensures { IfOk result (λ known. AreWanted scope.now signals.now (values_of known)) }
{
    let mut known = NameMap::new(alloc);
    for signal in signals {
        known.put(&signal_key(alloc, scope, signal)?, None)?;
    }
    Ok(known)
}

/// The codes of the first variables that record signals.
pub(crate) fn codes(
    alloc: Global,
    design: &Design,
    scope: &[u8],
    dump: &Dump,
) -> Result<Vec<Option<u32>>, Memory>
    ensures { IfOk result (λ codes. codes.items
        ≡ map (λ (signal : Signal). first_code (signal_key scope.now signal) (variables (dump_of dump.now)))
        design.now.signals.items) }
{
    let known = known(alloc, &design.signals, scope, &dump.entries)?;
    let mut codes = Vec::new(alloc);
    for signal in &design.signals {
        let key = signal_key(alloc, scope, signal)?;
        codes.push(known.find(&key).flatten())?;
    }
    Ok(codes)
}

/// What is known of the keys of signals behind all entries.
fn known(
    alloc: Global,
    signals: &[Signal],
    scope: &[u8],
    entries: &[Entry],
) -> Result<NameMap<Option<u32>>, Memory>
    ensures { IfOk result (λ known. AreFirst scope.now signals.now (variables_in [] entries.now) (values_of known)) }
{
    let mut walk = Walk {
        alloc,
        prefix: Vec::new(alloc),
        ends: Vec::new(alloc),
        known: wanted(alloc, signals, scope)?,
    };
    for entry in entries {
        walk.take(entry)?;
    }
    Ok(walk.known)
}
