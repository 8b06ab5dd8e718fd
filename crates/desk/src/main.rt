// The desk's program: its whole call over the system's arguments, files, database, clock, network
// and standard output.
#![tactic(auto)]

use desk_command::start;
use desk_io::{FileShelf, SystemFiles, WriterSink};
use desk_links::{SystemClock, TcpDoor};
use desk_sqlite::{InFile, SqlKeeper};
use std::process::ExitCode;
use std::{env, io};

fn main(rt: HostRuntime) -> ExitCode {
    let alloc = rt.alloc();
    let mut shelf = FileShelf::new(alloc, SystemFiles::new(&rt));
    let mut keeper = SqlKeeper::new(alloc, InFile { runtime: &rt });
    let mut clock = SystemClock::new(&rt);
    let mut door = TcpDoor::new(&rt);
    let mut out = WriterSink::new(io::writer(&rt));
    ExitCode::from(start(
        alloc,
        env::args(&rt),
        &mut shelf,
        &mut keeper,
        &mut clock,
        &mut door,
        &mut out,
    ))
}
