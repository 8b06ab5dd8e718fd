// A door at a port of this machine.
ghost use Rattle.std.specs.Prelude.{◌≡◌, None, IfOk, IfSome, OnOk};
ghost use Rattle.desk_io.specs.Causes.{HasCause};
ghost use Rattle.desk_links.specs.Held.{tcp_faults, tcp_link_faults};

use super::Door;
use crate::link::TcpLink;
use desk_io::Failed;
use std::io::Read;
use std::net::{Net, OpenListener, OpenStream, Shutdown, SocketAddr};
use std::time::{Clock, Duration};

// How many pieces of what its client still sends are read away where a link ends, how large they
// are, and how long each is waited for: a second for all of them, however slowly they come.
const END_PIECES: usize = 16;

const END_MILLIS: u64 = 62;

const PIECE_BYTES: usize = 4_096;

/// A door at a port of this machine, for clients on the same machine. It tells nothing of them. A
/// link that is given back says that all is said, reads away up to 64 KiB that its client still
/// sends within a second at most, and closes.
#[derive(Drop)]
pub struct TcpDoor<R: Net + Clock + Copy + Drop> {
    runtime: R,
    listener: Option<R::Listener>,
    faults: u64,
}

impl<R: Net + Clock + Copy + Drop> TcpDoor<R> {
    ghost use Rattle.std.specs.Prelude.{◌≡◌, ◌≤◌, IfSome};
    ghost use Rattle.desk_io.specs.Causes.{Rose};
    ghost use Rattle.desk_links.specs.Held.{tcp_faults, tcp_link_faults};

    /// A door of the network of this runtime, which isn't open yet.
    pub fn new(runtime: R) -> TcpDoor<R>
        ensures { tcp_faults result ≡ 0 }
    {
        TcpDoor {
            runtime,
            listener: None,
            faults: 0,
        }
    }

    // The next client, where there is one.
    fn accepted(&self) -> Option<TcpLink<R, R::Stream>>
        ensures { IfSome result (λ link. tcp_link_faults link ≡ 0) }
    {
        let listener = self.listener.as_ref()?;
        let (stream, _) = listener.accept().ok()?;
        Some(TcpLink::new(self.runtime, stream))
    }

    fn count_fault(&mut self) -> Failed
        ensures rose { Rose (tcp_faults self.old) (tcp_faults self.new) }
        ensures later { tcp_faults self.old ≤ tcp_faults self.new }
    {
        self.faults = self.faults.saturating_add(1);
        Failed
    }
}

// Reads away what a client still sends, up to a bound.
fn read_away<S: Read>(stream: &mut S) {
    let mut piece = [0; PIECE_BYTES];
    for _ in 0..END_PIECES {
        match stream.read(&mut piece) {
            Ok(count) if count > 0 => {}
            _ => return,
        }
    }
}

impl<R: Net + Clock + Copy + Drop> Door for TcpDoor<R> {
    type L = TcpLink<R, R::Stream>;

    ghost visits = { λ _. None };

    ghost faults = { λ door. tcp_faults door };

    fn listen(&mut self, port: u16) -> Result<(), Failed>
        ensures cause { HasCause (tcp_faults self.old) (tcp_faults self.new) result }
        ensures calm { OnOk result (tcp_faults self.new ≡ tcp_faults self.old) }
    {
        match self.runtime.bind(SocketAddr::from(([127, 0, 0, 1], port))) {
            Ok(listener) => {
                self.listener = Some(listener);
                Ok(())
            }
            Err(_) => Err(self.count_fault()),
        }
    }

    fn next(&mut self) -> Result<TcpLink<R, R::Stream>, Failed>
        ensures unharmed { IfOk result (λ link. tcp_link_faults link ≡ 0) }
        ensures cause { HasCause (tcp_faults self.old) (tcp_faults self.new) result }
        ensures calm { OnOk result (tcp_faults self.new ≡ tcp_faults self.old) }
    {
        match self.accepted() {
            Some(link) => Ok(link),
            None => Err(self.count_fault()),
        }
    }

    fn ended(&mut self, link: TcpLink<R, R::Stream>)
        ensures count { tcp_faults self.new ≡ tcp_faults self.old }
    {
        let mut link = link;
        let said = link.stream.shutdown(Shutdown::Write).is_ok();
        let limit = Duration::from_millis(END_MILLIS);
        if said && link.stream.set_read_timeout(Some(limit)).is_ok() {
            read_away(&mut link.stream);
        }
    }
}
