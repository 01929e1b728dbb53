// A link over TCP that listens, and one that calls it, on one thread.
ghost use Rattle.std.specs.Prelude.{◌≡◌, true};

use crate::show::{said, taken};
use cap_link::{Link, TcpLink};
use std::alloc::{AllocError, Global};
use std::net::Net;

// A link that listens at the first of these ports that is free, and its address.
fn listening<R: Net + Drop + Copy>(
    alloc: Global,
    rt: R,
) -> Result<Option<(TcpLink<R>, String)>, AllocError> {
    for port in 47_613..47_713 {
        let address = format!(in alloc; "127.0.0.1:{port}")?;
        let mut link = TcpLink::listening(rt, address.clone()?);
        if link.bind().is_ok() {
            return Ok(Some((link, address)));
        }
    }
    Ok(None)
}

fn take<L: Link>(alloc: Global, link: &mut L) -> Result<String, AllocError>
    requires { L.is_open link.old ≡ true }
    ensures { L.is_open link.new ≡ true }
{
    let mut buf = [0u8; 16];
    let answer = link.take(&mut buf);
    taken(alloc, answer, &buf)
}

// One end puts a text, and the other takes what there is.
fn sent<A: Link, B: Link>(
    alloc: Global,
    from: &mut A,
    to: &mut B,
    text: &str,
) -> Result<String, AllocError>
    requires from { A.is_open from.old ≡ true }
    requires to { B.is_open to.old ≡ true }
    ensures from { A.is_open from.new ≡ true }
    ensures to { B.is_open to.new ≡ true }
{
    let put = from.put(text.as_bytes());
    let got = take(alloc, to)?;
    format!(in alloc; "{put:?} {got}")
}

// A question and its answer.
fn talk<A: Link, B: Link>(
    alloc: Global,
    here: &mut A,
    there: &mut B,
) -> Result<String, AllocError> {
    if there.next() != Ok(true) || here.next() != Ok(true) {
        return said(alloc, "not connected");
    }
    let asked = sent(alloc, there, here, "ask")?;
    let told = sent(alloc, here, there, "tell")?;
    format!(in alloc; "{asked}, {told}")
}

// The end that listens closes with bytes that it has not taken: its last reply is there nevertheless, then the end.
fn close<A: Link, B: Link>(
    alloc: Global,
    here: &mut A,
    there: &mut B,
) -> Result<String, AllocError> {
    if there.next() != Ok(true) || here.next() != Ok(true) {
        return said(alloc, "not connected");
    }
    let puts = (there.put(b"more"), here.put(b"bye"));
    here.close();
    let last = take(alloc, there)?;
    let end = take(alloc, there)?;
    let late = here.put(b"late");
    format!(in alloc; "{puts:?}, {last}, {end}, {late:?}")
}

// What the end that listens closed, it does not take from.
fn take_late<A: Link, B: Link>(
    alloc: Global,
    here: &mut A,
    there: &mut B,
) -> Result<String, AllocError> {
    if there.next() != Ok(true) || here.next() != Ok(true) {
        return said(alloc, "not connected");
    }
    there.close();
    let end = take(alloc, here)?;
    here.close();
    let late = take(alloc, here)?;
    format!(in alloc; "{end}, {late}")
}

fn case<A: Link, B: Link>(
    alloc: Global,
    here: &mut A,
    there: &mut B,
    words: &[&str],
) -> Result<String, AllocError> {
    match words {
        ["talk"] => talk(alloc, here, there),
        ["close"] => close(alloc, here, there),
        ["late"] => take_late(alloc, here, there),
        _ => said(alloc, "none"),
    }
}

/// A case of a connection on this machine: `talk`, `close`, `late`.
pub fn socket<R: Net + Drop + Copy>(
    alloc: Global,
    rt: R,
    words: &[&str],
) -> Result<String, AllocError> {
    match listening(alloc, rt)? {
        Some((mut here, address)) => {
            let mut there = TcpLink::calling(rt, address);
            if there.bind().is_err() {
                return said(alloc, "not bound");
            }
            case(alloc, &mut here, &mut there, words)
        }
        None => said(alloc, "no port is free"),
    }
}
