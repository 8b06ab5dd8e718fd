// Reads tokens as modules, without recursion.

ghost use Rattle.std.specs.Prelude.{◌≡◌, ◌++◌, true, false, reverse, map, IfOk};
ghost use Rattle.rtl_tree.specs.Symbols.{terminal};
ghost use Rattle.text_survey.specs.Machine as spec;
ghost use Rattle.text_survey.specs.Rule as rules;
ghost use Rattle.text_survey.specs.Surveys as surveys;
ghost use Rattle.text_survey.specs.Depths as depth;

use crate::depths::Depths;
use crate::table::rule;
use crate::task::{Taking, Task};
use rtl_tree::symbol::{Symbol, Terminal};
use std::alloc::Global;
use text_grammar::nesting::MAX_NESTING;
use text_ground::memory::Memory;

/// What tokens are to the grammar.
#[derive(Clone, Copy, PartialEq, Eq, Debug)]
pub enum Surveyed {
    /// They spell modules, whose expressions and statements are nested at most 200 deep.
    Spelled,
    /// They spell modules, and this is the least place of an expression or a statement that is nested deeper than 200.
    TooDeep(u32),
    /// The first so many of them can be gone on to modules, and no further.
    Stopped(usize),
}

/// What is still to be done, what is left, and what is known of what was read.
#[derive(Drop)]
struct Machine<'a> {
    /// The next one is the last.
    tasks: Vec<Task>,
    depths: Depths,
    rest: &'a [Terminal<'a>],
}

/// Puts tasks before those of the stack.
fn put(stack: &mut Vec<Task>, tasks: &[Task]) -> Result<(), Memory>
    ensures { IfOk result (λ _. reverse stack.new.items ≡ tasks.now ++ reverse stack.old.items) }
{
    let mut left = tasks.len();
    while left > 0 {
        left -= 1;
        stack.push(tasks[left])?;
    }
    Ok(())
}

impl<'a> Machine<'a> {
    fn next(&self) -> Option<Symbol>
        ensures { result ≡ spec.symbol_at (map terminal self.now.rest.now) }
    {
        match self.rest {
            [token, ..] => Some(token.symbol),
            [] => None,
        }
    }

    /// The place of the next token.
    fn place(&self) -> u32
        ensures { result ≡ depth.place (map terminal self.now.rest.now) }
    {
        match self.rest {
            [token, ..] => token.at,
            [] => 0,
        }
    }

    fn take(&mut self, taking: Taking)
        ensures rest { map terminal self.new.rest.now
            ≡ spec.left taking (map terminal self.old.rest.now) }
        ensures tasks { self.new.tasks ≡ self.old.tasks }
        ensures depths { self.new.depths ≡ self.old.depths }
    {
        if let (Taking::Token | Taking::Node | Taking::Operator, [_, rest @ ..]) = (
            taking, self.rest,
        ) {
            self.rest = rest;
        }
    }

    /// Does a task, unless the next token can't stand there.
    fn step(&mut self, task: Task) -> Result<bool, Memory>
        ensures step { IfOk result (λ moved.
            spec.Moves (spec.moved (rules.rule task
            (spec.symbol_at (map terminal self.old.rest.now))) (reverse self.old.tasks.items)
            (map terminal self.old.rest.now)) moved (surveys.state self.new)) }
        ensures kept { IfOk result (λ moved. moved ≡ false
            → self.new.rest.now ≡ self.old.rest.now) }
        ensures read { IfOk result (λ moved. moved ≡ true → (s : depth.Depths)
            → depth.IsKept self.old.depths s
            → depth.IsKept self.new.depths
            (depth.read_by task (rules.rule task (spec.symbol_at (map terminal self.old.rest.now)))
            (depth.place (map terminal self.old.rest.now)) s)) }
    {
        let next = self.next();
        let place = self.place();
        let Some(now) = rule(task, next) else {
            return Ok(false);
        };
        self.depths.begin(now.taking, place)?;
        self.depths.count(task)?;
        self.take(now.taking);
        put(&mut self.tasks, now.tasks)?;
        Ok(true)
    }
}

/// Of tokens whose numbers have values: whether they spell modules, else the first token that no modules can have there, and
/// whether these are nested too deep. Of others it is said only that nothing is spelled where they stop. The only error is want
/// of memory.
pub fn survey(alloc: Global, tokens: &[Terminal]) -> Result<Surveyed, Memory>
    ensures { IfOk result (λ s. surveys.IsSurvey (map terminal tokens.now) s) }
{
    let mut machine = Machine {
        tasks: Vec::new(alloc),
        depths: Depths::new(alloc)?,
        rest: tokens,
    };
    machine.tasks.push(Task::Source)?;
    while let Some(task) = machine.tasks.pop() {
        if !machine.step(task)? {
            return Ok(Surveyed::Stopped(tokens.len() - machine.rest.len()));
        }
    }
    if !machine.rest.is_empty() {
        return Ok(Surveyed::Stopped(tokens.len() - machine.rest.len()));
    }
    match machine.depths.deeper(MAX_NESTING as usize) {
        Some(at) => Ok(Surveyed::TooDeep(at)),
        None => Ok(Surveyed::Spelled),
    }
}
