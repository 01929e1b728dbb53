// Links over TCP: the trusted edge. They tell nothing of content.
ghost use Rattle.std.specs.Prelude.{◌≡◌, ◌≤◌, ℕ, List, [], Bool, true, false, None, IsOk, IsErr};
ghost use Rattle.std.specs.Io.{ReadsAtMost};
ghost use Rattle.cap_base.specs.Causes.{HasCause};
ghost use Rattle.cap_link.specs.Lines.{Lines, untold};

use crate::link::Link;
use cap_base::{Failed, PutError};
use std::io::{ErrorKind, Read, Write};
use std::net::{Net, OpenListener, OpenStream, Shutdown, TcpListener, TcpStream};
use std::time::Duration;

/// How often a call tries again after an interruption, or after a connection that its peer gave up before it was accepted.
const MOST_TRIES: u32 = 1000;

/// How many seconds a call waits for its peer.
const IDLE_SECONDS: u64 = 30;

/// How many seconds closing waits for more of what the peer still sends.
const CLOSING_SECONDS: u64 = 5;

/// How often closing reads, and how many bytes at most each time.
const CLOSING_READS: u32 = 16;

const CLOSING_BYTES: usize = 4096;

/// A link over TCP, which listens or calls. A peer that is silent for 30 seconds where bytes are awaited, or that takes none for as
/// long, is a fault of its connection.
#[derive(Drop)]
pub struct TcpLink<R: Net + Drop> {
    rt: R,
    address: String,
    listens: bool,
    listener: Option<R::Listener>,
    stream: Option<R::Stream>,
    opened: bool,
    port_faults: u64,
    line_faults: u64,
}

impl<R: Net + Drop> TcpLink<R> {
    /// A link that takes the connections that come to an address.
    pub fn listening(rt: R, address: String) -> TcpLink<R>
        ensures listens { result.listens ≡ true }
        ensures opened { result.opened ≡ false }
        ensures port { result.port_faults ≡ 0 }
        ensures line { result.line_faults ≡ 0 }
    {
        TcpLink {
            rt,
            address,
            listens: true,
            listener: None,
            stream: None,
            opened: false,
            port_faults: 0,
            line_faults: 0,
        }
    }

    /// A link that connects to an address.
    pub fn calling(rt: R, address: String) -> TcpLink<R>
        ensures listens { result.listens ≡ false }
        ensures opened { result.opened ≡ false }
        ensures port { result.port_faults ≡ 0 }
        ensures line { result.line_faults ≡ 0 }
    {
        TcpLink {
            rt,
            address,
            listens: false,
            listener: None,
            stream: None,
            opened: false,
            port_faults: 0,
            line_faults: 0,
        }
    }

    /// Binds a link that listens, before the first connection. It does nothing on one that calls or is bound.
    pub fn bind(&mut self) -> Result<(), Failed>
        ensures calls { self.old.listens ≡ false → IsOk result }
        ensures cause { HasCause self.old.port_faults self.new.port_faults result }
        ensures line { self.new.line_faults ≡ self.old.line_faults }
        ensures opened { self.new.opened ≡ self.old.opened }
    {
        if !self.listens || self.listener.is_some() {
            return Ok(());
        }
        match TcpListener::bind(&self.rt, self.address.as_str()) {
            Ok(listener) => {
                self.listener = Some(listener);
                Ok(())
            }
            Err(_) => self.port_fault(),
        }
    }

    fn port_fault<T>(&mut self) -> Result<T, Failed>
        ensures err { IsErr result }
        ensures cause { HasCause self.old.port_faults self.new.port_faults result }
        ensures line { self.new.line_faults ≡ self.old.line_faults }
        ensures opened { self.new.opened ≡ self.old.opened }
    {
        self.port_faults = self.port_faults.saturating_add(1);
        Err(Failed)
    }
}

// The next connection that comes. One that its peer gave up before, or that the network lost, is passed over.
fn accepted<L: OpenListener>(listener: &L) -> Option<L::Stream> {
    for _ in 0..MOST_TRIES {
        match listener.accept() {
            Ok((stream, _)) => return Some(stream),
            Err(error) => match error.kind() {
                ErrorKind::ConnectionAborted
                | ErrorKind::ConnectionReset
                | ErrorKind::HostUnreachable
                | ErrorKind::NetworkUnreachable
                | ErrorKind::NetworkDown
                | ErrorKind::Interrupted => {}
                _ => return None,
            },
        }
    }
    None
}

// Lets a stream send small frames at once, and wait for its peer no longer than the limit. Where the limit can't be set, the stream is
// not used: it might wait forever.
fn is_limited<S: OpenStream>(stream: &S) -> bool {
    let _ = stream.set_nodelay(true);
    let limit = Duration::from_secs(IDLE_SECONDS);
    stream.set_read_timeout(Some(limit)).is_ok() && stream.set_write_timeout(Some(limit)).is_ok()
}

// Says that nothing more is sent, and reads what the peer still sends, up to a bound. A stream that is dropped with bytes unread is
// reset, and the peer may then lose the last reply.
fn end<S: Read + OpenStream>(stream: &mut S) {
    if stream.shutdown(Shutdown::Write).is_err() {
        return;
    }
    if stream
        .set_read_timeout(Some(Duration::from_secs(CLOSING_SECONDS)))
        .is_err()
    {
        return;
    }
    let mut rest = [0; CLOSING_BYTES];
    for _ in 0..CLOSING_READS {
        match stream.read(&mut rest) {
            Ok(0) => return,
            Ok(_) => {}
            Err(error) => {
                if error.kind() != ErrorKind::Interrupted {
                    return;
                }
            }
        }
    }
}

// Reads, and tries again after an interruption.
fn read_some<S: Read>(stream: &mut S, buf: &mut [u8]) -> Result<usize, Failed>
    ensures bound { ReadsAtMost result buf.new }
{
    for _ in 0..MOST_TRIES {
        match stream.read(buf) {
            Ok(count) => return Ok(count),
            Err(error) => {
                if error.kind() != ErrorKind::Interrupted {
                    break;
                }
            }
        }
    }
    Err(Failed)
}

// Writes the bytes, and says whether it wrote all.
fn write_whole<S: Write>(stream: &mut S, bytes: &[u8]) -> bool {
    let mut rest = bytes;
    let mut tries = MOST_TRIES;
    'pieces: while !rest.is_empty() {
        match stream.write(rest) {
            Ok(0) => return false,
            Ok(count) => rest = rest.split_at(count).1,
            Err(error) => {
                if error.kind() != ErrorKind::Interrupted || tries == 0 {
                    return false;
                }
                tries -= 1;
            }
        }
    }
    true
}

impl<R: Net + Drop> Link for TcpLink<R> {
    ghost tells = { λ _. false };

    ghost lines = { λ _. record { waiting = []; ended = []; current = None } };

    ghost is_open = { λ l. l.opened };

    ghost port_faults = { λ l. l.port_faults };

    ghost line_faults = { λ l. l.line_faults };

    ghost shows_open = { λ _ told. untold told };

    fn next(&mut self) -> Result<bool, Failed> {
        self.stream = None;
        self.bind()?;
        let connected = match &self.listener {
            Some(listener) => accepted(listener),
            None => match TcpStream::connect(&self.rt, self.address.as_str()) {
                Ok(stream) => Some(stream),
                Err(_) => None,
            },
        };
        let Some(stream) = connected else {
            return self.port_fault();
        };
        if !is_limited(&stream) {
            return self.port_fault();
        }
        self.stream = Some(stream);
        self.opened = true;
        Ok(true)
    }

    fn take(&mut self, buf: &mut [u8]) -> Result<usize, Failed> {
        if let Some(stream) = &mut self.stream {
            if let Ok(count) = read_some(stream, buf) {
                return Ok(count);
            }
        }
        self.line_faults = self.line_faults.saturating_add(1);
        Err(Failed)
    }

    fn put(&mut self, bytes: &[u8]) -> Result<(), PutError> {
        if let Some(stream) = &mut self.stream {
            if write_whole(stream, bytes) {
                return Ok(());
            }
        }
        self.line_faults = self.line_faults.saturating_add(1);
        Err(PutError::Failed)
    }

    fn close(&mut self) {
        if let Some(stream) = &mut self.stream {
            end(stream);
        }
        self.stream = None;
    }
}
