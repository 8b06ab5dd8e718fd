// The words of the command line, read by hand.

ghost use Rattle.std.specs.Prelude.{◌≡◌, option_map, bytes_eq};
ghost use Rattle.std.specs.List.{list_all, list_any};
ghost use Rattle.desk_top.specs.Words.{Replay, Simulate, all_different, are_files, generate_order, is_name, order, sign_order, ahead_order, stages_order, texts, vcd_order};
ghost use Rattle.desk_top.specs.Commands.{order_of};

use desk_numbers::{is_positive, number_up_to};
use desk_stages::MOST_STAGES;

/// The most files that a command is given.
const MOST_FILES: usize = 64;

/// A command.
#[derive(Clone, Copy)]
pub enum Command<'a> {
    /// Rules the module of this name among those of these files.
    Sign {
        top: &'a str,
        files: &'a [String],
    },
    /// Runs the module of this name among those of these files through the steps of a file.
    Simulate {
        top: &'a str,
        steps: &'a str,
        files: &'a [String],
    },
    /// Runs the demonstration of a file again in the module of this name among those of these files.
    Replay {
        top: &'a str,
        demo: &'a str,
        files: &'a [String],
    },
    /// Compares a recorded dump, which has the top in a scope, with the module of this name among those of these files.
    Vcd {
        top: &'a str,
        scope: &'a str,
        dump: &'a str,
        files: &'a [String],
    },
    /// Rules a generated design of so many stages.
    Generate {
        stages: u32,
    },
}

/// The command that the words are, if they are one.
pub fn read_command(words: &[String]) -> Option<Command<'_>>
    ensures { option_map order_of result ≡ order (texts words.now) }
{
    let (name, rest) = words.split_first()?;
    match name.as_str() {
        "sign" => read_sign(rest),
        "simulate" => read_simulate(rest),
        "replay" => read_replay(rest),
        "vcd" => read_vcd(rest),
        "generate" => read_generate(rest),
        _ => None,
    }
}

fn read_sign(words: &[String]) -> Option<Command<'_>>
    ensures { option_map order_of result ≡ sign_order (texts words.now) }
{
    let (top, files) = words.split_first()?;
    if is_name(top.as_str()) && are_files(files) {
        Some(Command::Sign {
            top: top.as_str(),
            files,
        })
    } else {
        None
    }
}

fn read_simulate(words: &[String]) -> Option<Command<'_>>
    ensures { option_map order_of result ≡ ahead_order Simulate (texts words.now) }
{
    let (top, rest) = words.split_first()?;
    let (steps, files) = rest.split_first()?;
    if is_name(top.as_str()) && (is_name(steps.as_str()) && are_files(files)) {
        Some(Command::Simulate {
            top: top.as_str(),
            steps: steps.as_str(),
            files,
        })
    } else {
        None
    }
}

fn read_replay(words: &[String]) -> Option<Command<'_>>
    ensures { option_map order_of result ≡ ahead_order Replay (texts words.now) }
{
    let (top, rest) = words.split_first()?;
    let (demo, files) = rest.split_first()?;
    if is_name(top.as_str()) && (is_name(demo.as_str()) && are_files(files)) {
        Some(Command::Replay {
            top: top.as_str(),
            demo: demo.as_str(),
            files,
        })
    } else {
        None
    }
}

fn read_vcd(words: &[String]) -> Option<Command<'_>>
    ensures { option_map order_of result ≡ vcd_order (texts words.now) }
{
    let (top, rest) = words.split_first()?;
    let (scope, rest) = rest.split_first()?;
    let (dump, files) = rest.split_first()?;
    if is_name(top.as_str())
        && (is_name(scope.as_str()) && (is_name(dump.as_str()) && are_files(files)))
    {
        Some(Command::Vcd {
            top: top.as_str(),
            scope: scope.as_str(),
            dump: dump.as_str(),
            files,
        })
    } else {
        None
    }
}

fn read_generate(words: &[String]) -> Option<Command<'_>>
    ensures { option_map order_of result ≡ generate_order (texts words.now) }
{
    let (stages, rest) = words.split_first()?;
    if rest.is_empty() {
        read_stages(stages.as_bytes())
    } else {
        None
    }
}

// A number of stages.
fn read_stages(word: &[u8]) -> Option<Command<'static>>
    ensures { option_map order_of result ≡ stages_order word.now }
{
    let stages = number_up_to(1 + u64::from(MOST_STAGES), word);
    if is_positive(word) && stages <= u64::from(MOST_STAGES) {
        Some(Command::Generate {
            stages: stages as u32,
        })
    } else {
        None
    }
}

// There are 1 to 64 names of files, all different.
fn are_files(files: &[String]) -> bool
    ensures { result ≡ are_files (texts files.now) }
{
    let count = files.len();
    (1 <= count && count <= MOST_FILES) && (all_names(files) && all_different(files))
}

fn all_names(files: &[String]) -> bool
    ensures { result ≡ list_all is_name (texts files.now) }
{
    let Some((first, others)) = files.split_first() else {
        return true;
    };
    is_name(first.as_str()) && all_names(others)
}

// No name is there twice. There are 64 at most.
fn all_different(names: &[String]) -> bool
    ensures { result ≡ all_different (texts names.now) }
{
    let Some((first, others)) = names.split_first() else {
        return true;
    };
    !is_among(first.as_str(), others) && all_different(others)
}

fn is_among(name: &str, others: &[String]) -> bool
    ensures { result ≡ list_any (bytes_eq name.now) (texts others.now) }
{
    let Some((first, rest)) = others.split_first() else {
        return false;
    };
    name == first.as_str() || is_among(name, rest)
}

// A name isn't empty, and doesn't begin with a dash.
fn is_name(word: &str) -> bool
    ensures { result ≡ is_name word.now }
{
    match word.as_bytes() {
        [] => false,
        [first, ..] => *first != b'-',
    }
}
