// The rows of the input.
use crate::lines::Line;
use crate::show::{number, said};
use crate::{clocks, disks, files, links, sockets, streams};
use cap_link::MemLink;
use std::alloc::{AllocError, Global};

/// All that is tried out, and the runtime.
#[derive(Drop)]
pub struct Desk<'a> {
    rt: &'a HostRuntime,
    streams: streams::Streams,
    line: Line<MemLink>,
    disks: files::TwoDisks<&'a HostRuntime>,
}

impl<'a> Desk<'a> {
    pub fn new(rt: &'a HostRuntime) -> Desk<'a> {
        Desk {
            rt,
            streams: streams::Streams::new(rt.alloc()),
            line: Line::new(MemLink::new(rt.alloc(), Vec::new(rt.alloc()))),
            disks: files::TwoDisks::new(),
        }
    }
}

// The words of a row, and the numbers that those behind the second spell.
fn split<'r>(alloc: Global, row: &'r str) -> Result<(Vec<&'r str>, Vec<u64>), AllocError> {
    let mut words = Vec::new(alloc);
    let mut calls = Vec::new(alloc);
    for word in row.split(' ') {
        if words.len() >= 2 {
            calls.push(number(word))?;
        }
        words.push(word)?;
    }
    Ok((words, calls))
}

// What lies outside of this program: files, sockets, the clock.
fn outside(desk: &mut Desk<'_>, words: &[&str]) -> Result<String, AllocError> {
    let alloc = desk.rt.alloc();
    match words {
        ["file", rest @ ..] => files::one(alloc, desk.rt, &mut desk.disks, rest),
        ["other", rest @ ..] => files::other(alloc, desk.rt, &mut desk.disks, rest),
        ["path", rest @ ..] => files::path(alloc, desk.rt, rest),
        ["clock", rest @ ..] => clocks::clock(alloc, desk.rt, rest),
        ["tcp", rest @ ..] => sockets::socket(alloc, desk.rt, rest),
        _ => said(alloc, "none"),
    }
}

/// The answer to a row.
pub fn answered(desk: &mut Desk<'_>, row: &str) -> Result<String, AllocError> {
    let alloc = desk.rt.alloc();
    let (words, calls) = split(alloc, row)?;
    match words.as_slice() {
        ["source", rest @ ..] => streams::source(alloc, &mut desk.streams, rest, &calls),
        ["sink", rest @ ..] => streams::sink(alloc, &mut desk.streams, rest, &calls),
        ["std", rest @ ..] => streams::over_std(alloc, &mut desk.streams, rest),
        ["link", rest @ ..] => links::link(alloc, &mut desk.line, rest, &calls),
        ["disk", rest @ ..] => disks::disk(alloc, rest),
        words => outside(desk, words),
    }
}
