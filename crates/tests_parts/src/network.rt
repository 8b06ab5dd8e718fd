//! What comes through a door at a port of this machine. One client is served at a time: it sends
//! all that it has before its link is taken, and hears all that was written once its link is given
//! back.

use crate::calls::say;
use crate::stop::Stop;
use desk_links::{Door, Link, TcpDoor};
use std::alloc::Global;
use std::io::{Read, Write};
use std::net::{OpenListener, OpenStream, Shutdown, SocketAddr, TcpListener, TcpStream};
use std::time::Duration;
use tests_reader::push_quoted;

const THIS_MACHINE: [u8; 4] = [127, 0, 0, 1];

/// Another address of the same machine.
const OTHER_ADDRESS: [u8; 4] = [127, 0, 0, 2];

/// How many bytes are read at a time, and how often at most.
const PIECE_BYTES: usize = 1_000;

const MOST_READS: usize = 1_000;

/// How long a client waits for what is written to it.
const PATIENCE_SECONDS: u64 = 10;

/// Up to how many bytes are shown.
const MOST_SHOWN: usize = 256;

/// A port that the system gives.
fn free_port(rt: &HostRuntime) -> Result<u16, Stop> {
    let listener = TcpListener::bind(rt, SocketAddr::from((THIS_MACHINE, 0)))?;
    Ok(listener.local_addr()?.port())
}

/// What is read of a link up to its end.
fn heard<L: Link>(alloc: Global, link: &mut L) -> Result<Vec<u8>, Stop> {
    let mut all = Vec::new(alloc);
    let mut piece = [0; PIECE_BYTES];
    for _ in 0..MOST_READS {
        match link.read(&mut piece) {
            Ok(0) => return Ok(all),
            Ok(count) => all.extend_from_slice(piece.get(..count).unwrap_or(&piece))?,
            Err(_) => return Err(Stop::System),
        }
    }
    Err(Stop::TooLong)
}

/// Writes all bytes to a link.
fn say_all<L: Link>(link: &mut L, bytes: &[u8]) -> Result<(), Stop> {
    let mut left = bytes;
    for _ in 0..bytes.len() {
        if left.is_empty() {
            return Ok(());
        }
        match link.write(left) {
            Ok(count) => left = left.get(count..).unwrap_or(b""),
            Err(_) => return Err(Stop::System),
        }
    }
    Ok(())
}

/// How many bytes came, which where they are few, and whether they are those that were sent.
fn put_came(
    alloc: Global,
    title: &str,
    came: &[u8],
    sent: &[u8],
    out: &mut Vec<u8>,
) -> Result<(), Stop> {
    let is_same = came == sent;
    say(
        out,
        &format!(in alloc; "{title} {} bytes, as sent {is_same}", came.len())?,
    )?;
    if came.len() <= MOST_SHOWN {
        say(out, " ")?;
        push_quoted(alloc, came, out)?;
    }
    say(out, "\n")
}

/// Whether a client comes through at an address.
fn is_open(rt: &HostRuntime, address: [u8; 4], port: u16) -> bool {
    TcpStream::connect(rt, SocketAddr::from((address, port))).is_ok()
}

/// A door at a port, where none was before; a second door isn't opened there.
fn opened<'r>(
    rt: &'r HostRuntime,
    port: u16,
    out: &mut Vec<u8>,
) -> Result<TcpDoor<&'r HostRuntime>, Stop> {
    let alloc = rt.alloc();
    let mut door = TcpDoor::new(rt);
    let is_early = door.next().is_ok();
    let is_opened = door.listen(port).is_ok();
    let is_twice = TcpDoor::new(rt).listen(port).is_ok();
    let is_elsewhere = is_open(rt, OTHER_ADDRESS, port);
    say(
        out,
        &format!(in alloc; "a client before the door is open {is_early}\n")?,
    )?;
    say(
        out,
        &format!(in alloc; "open {is_opened}, once more {is_twice}\n")?,
    )?;
    say(out, &format!(in alloc; "at 127.0.0.2 {is_elsewhere}\n")?)?;
    Ok(door)
}

/// What comes through a door of what a client sends, and what it hears of what is answered.
pub fn told(rt: &HostRuntime, sent: &[u8], answered: &[u8]) -> Result<Vec<u8>, Stop> {
    let alloc = rt.alloc();
    let port = free_port(rt)?;
    let mut out = Vec::new(alloc);
    let mut door = opened(rt, port, &mut out)?;
    let mut client = TcpStream::connect(rt, SocketAddr::from((THIS_MACHINE, port)))?;
    client.set_read_timeout(Some(Duration::from_secs(PATIENCE_SECONDS)))?;
    client.write_all(sent)?;
    client.shutdown(Shutdown::Write)?;
    let Ok(mut link) = door.next() else {
        return Err(Stop::System);
    };
    put_came(alloc, "heard", &heard(alloc, &mut link)?, sent, &mut out)?;
    say_all(&mut link, answered)?;
    door.ended(link);
    let mut came = Vec::new(alloc);
    client.read_to_end(&mut came)?;
    put_came(alloc, "answered", &came, answered, &mut out)?;
    Ok(out)
}
