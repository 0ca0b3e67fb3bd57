//! What is written to standard error, where that is a terminal.

use knot_jobs::{Ports, Status};
use knot_ports::{NoWords, StdSink, StdSource};
use knot_tells::{reading, sentence_of};
use std::alloc::Global;
use std::fs::Files;
use std::io::{Read, Write};

/// Reports to whoever called what no answer says.
pub(crate) trait Tell {
    /// Reports that standard input is read, where the words ask for that.
    fn tell_reading(&self, words: &[String]);

    /// Reports what is wrong, where a call ended without an answer.
    fn tell_end<R: Read + Drop, W: Write + Drop>(
        &self,
        words: &[String],
        status: Status,
        ports: &Ports<StdSource<R>, StdSink<W>>,
    );

    /// Reports why the system gives no words.
    fn tell_no_words(&self, why: &NoWords);
}

/// Standard error, to which nothing is written but where it is a terminal, and the files, to see whether a word names one.
#[derive(Drop)]
pub(crate) struct Terminal<'a, T> {
    pub(crate) rt: &'a T,
    pub(crate) alloc: Global,
    /// Whether standard input is a terminal.
    pub(crate) is_read: bool,
    /// Whether standard error is one.
    pub(crate) is_written: bool,
}

impl<'a, T: Eprint + Files> Tell for Terminal<'a, T> {
    fn tell_reading(&self, words: &[String]) {
        if self.is_read && self.is_written && reading(self.alloc, words).is_some() {
            let _told = eprintln!(self.rt; "knot: standard input is read, up to its end (Ctrl-D)");
        }
    }

    fn tell_end<R: Read + Drop, W: Write + Drop>(
        &self,
        words: &[String],
        status: Status,
        ports: &Ports<StdSource<R>, StdSink<W>>,
    ) {
        if !self.is_written {
            return;
        }
        if let Some(sentence) = sentence_of(
            self.rt,
            self.alloc,
            words,
            status,
            &ports.source,
            ports.input.as_slice(),
            &ports.sink,
        ) {
            let _told = eprintln!(self.rt; "knot: {sentence}");
        }
    }

    fn tell_no_words(&self, why: &NoWords) {
        if self.is_written {
            let _told = eprintln!(self.rt; "knot: {why}");
        }
    }
}
