//! How far a search is, reported on standard error.

use meeting_walks::{Progress, Watch};
use seek_words::Talk;
use std::fmt;
use std::time::{Clock, Duration, Instant};

/// So many milliseconds lie between two lines at least.
const PAUSE: u64 = 500;

/// How it is reported.
#[derive(Clone, Copy, PartialEq, Eq)]
enum Way {
    /// Not at all.
    Silent,
    /// Each time in a line of its own.
    Lines,
    /// In one line of a terminal, which is written over.
    OneLine,
}

/// Reports how far a search is, at most twice a second.
#[derive(Drop)]
pub(crate) struct Teller<'a, R> {
    rt: &'a R,
    way: Way,
    /// When it was reported last.
    last: Option<Instant>,
    /// Whether a line is on the terminal.
    is_written: bool,
    /// How many steps the first worker has made.
    steps: u64,
}

impl<'a, R: Eprint + Clock> Teller<'a, R> {
    /// Reports where standard error is a terminal, or where it is asked for; on a terminal first when half a second has passed.
    pub(crate) fn new(rt: &'a R, talk: Talk, is_terminal: bool) -> Teller<'a, R> {
        let way = way_of(talk, is_terminal);
        Teller {
            rt,
            way,
            last: begun(rt, way),
            is_written: false,
            steps: 0,
        }
    }

    /// Whether it is time to report, which is noted then.
    fn is_due(&mut self) -> bool {
        let Ok(now) = Instant::now(self.rt) else {
            return false;
        };
        let is_due = self.is_past(now);
        if is_due {
            self.last = Some(now);
        }
        is_due
    }

    /// Whether it was reported long enough before, or never.
    fn is_past(&self, now: Instant) -> bool {
        match self.last {
            Some(last) => now.duration_since(last) >= Duration::from_millis(PAUSE),
            None => true,
        }
    }

    /// Shows once how far the search is.
    fn show(&mut self, progress: Progress) {
        let far = HowFar(progress);
        let _told = match self.way {
            Way::Silent => Ok(()),
            Way::Lines => eprintln!(self.rt; "seek: {far}"),
            Way::OneLine => eprint!(self.rt; "\rseek: {far}\x1b[K"),
        };
        self.is_written = self.way == Way::OneLine;
    }

    /// How many steps the first worker has made.
    pub(crate) fn steps(&self) -> u64 {
        self.steps
    }

    /// Clears the line of a terminal.
    pub(crate) fn end(&mut self) {
        if self.is_written {
            let _told = eprint!(self.rt; "\r\x1b[K");
            self.is_written = false;
        }
    }
}

/// When it counts as reported last at the beginning: on a terminal then, and else never.
fn begun<R: Clock>(rt: &R, way: Way) -> Option<Instant> {
    match way {
        Way::OneLine => Instant::now(rt).ok(),
        Way::Silent | Way::Lines => None,
    }
}

/// The way that goes with what is asked for, on a terminal or not.
fn way_of(talk: Talk, is_terminal: bool) -> Way {
    match talk {
        Talk::Quiet => Way::Silent,
        Talk::Terminal | Talk::Progress if is_terminal => Way::OneLine,
        Talk::Progress => Way::Lines,
        Talk::Terminal => Way::Silent,
    }
}

impl<'a, R: Eprint + Clock> Watch for Teller<'a, R> {
    fn note(&mut self, progress: Progress) {
        self.steps = progress.steps;
        if self.way != Way::Silent && self.is_due() {
            self.show(progress);
        }
    }
}

/// How far a search is, as a part of a sentence.
#[derive(Clone, Copy)]
struct HowFar(Progress);

impl fmt::Display for HowFar {
    fn fmt<W: fmt::Write>(&self, f: &mut fmt::Formatter<W>) -> fmt::Result {
        let Progress {
            steps,
            forms,
            first_size,
            second_size,
        } = self.0;
        write!(
            f,
            "{steps} steps, {forms} forms, least sizes {first_size} and {second_size}"
        )
    }
}
