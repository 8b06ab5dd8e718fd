// The words of the commands over the tables.
ghost use Rattle.std.specs.Prelude.{◌≡◌, ◌<◌, ◌^◌, option_map};
ghost use Rattle.desk_command.specs.Words.{is_count, is_port, is_up_to, order, order_of, report_order, serve_order};
ghost use Rattle.desk_top.specs.Words.{is_name, texts};

use desk_numbers::{is_positive, number_up_to};

// The greatest port, and the greatest count of connections.
const MAX_PORT: u64 = 65_535;

const MAX_COUNT: u64 = 1_000_000;

// A command over the tables.
#[derive(Clone, Copy)]
pub(crate) enum Command<'a> {
    // Tells what the rules say of the module of this name, with the waivers of today.
    Report { top: &'a str },
    // Serves so many connections at a port.
    Serve { port: u16, count: u32 },
}

// The command over the tables that the words are, if they are one.
pub(crate) fn read_command(words: &[String]) -> Option<Command<'_>>
    ensures { option_map order_of result ≡ order (texts words.now) }
{
    let (name, rest) = words.split_first()?;
    match name.as_str() {
        "report" => read_report(rest),
        "serve" => read_serve(rest),
        _ => None,
    }
}

fn read_report(words: &[String]) -> Option<Command<'_>>
    ensures { option_map order_of result ≡ report_order (texts words.now) }
{
    let (top, rest) = words.split_first()?;
    if is_name(top.as_str()) && rest.is_empty() {
        Some(Command::Report { top: top.as_str() })
    } else {
        None
    }
}

fn read_serve(words: &[String]) -> Option<Command<'_>>
    ensures { option_map order_of result ≡ serve_order (texts words.now) }
{
    let (port, rest) = words.split_first()?;
    let (count, more) = rest.split_first()?;
    if !more.is_empty() || !is_port(port.as_bytes()) || !is_count(count.as_bytes()) {
        return None;
    }
    let port = number_up_to(1 + MAX_PORT, port.as_bytes()) as u16;
    let count = number_up_to(1 + MAX_COUNT, count.as_bytes()) as u32;
    Some(Command::Serve { port, count })
}

// A number from 1 to a greatest one, without leading zeros.
fn is_up_to(most: u64, word: &[u8]) -> bool
    requires { most < 2 ^ 32 }
    ensures { result ≡ is_up_to most word.now }
{
    is_positive(word) && number_up_to(1 + most, word) <= most
}

fn is_port(word: &[u8]) -> bool
    ensures { result ≡ is_port word.now }
{
    is_up_to(MAX_PORT, word)
}

fn is_count(word: &[u8]) -> bool
    ensures { result ≡ is_count word.now }
{
    is_up_to(MAX_COUNT, word)
}

// A name isn't empty, and doesn't begin with a dash.
fn is_name(word: &str) -> bool
    ensures { result ≡ is_name word.now }
{
    match word.as_bytes() {
        [] => false,
        [first, ..] => *first != b'-',
    }
}
