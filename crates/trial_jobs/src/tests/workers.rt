//! Calls of `decide` with one worker and with more.
use super::gate::Meeting;
use super::{TREFOILS, call, is_exhausted};
use knot_ports::Status;
use search_book::Event;
use search_pool::Finding;
use std::alloc::Global;
use std::sync::Wait;
use std::test::Fail;
use std::thread::Threads;

/// The search, where the call ended without a verdict.
fn search_of(status: Status, kept: Option<Finding>) -> Result<Finding, Fail> {
    if status != Status::Unknown {
        return Err(Fail::from("another status"));
    }
    match kept {
        Some(finding) => Ok(finding),
        None => Err(Fail::from("no search")),
    }
}

/// The search that a call on both trefoils keeps, at a gate.
fn search_at<R: Threads + Wait + Sync>(
    rt: &R,
    alloc: Global,
    line: &str,
    gate: &Meeting,
) -> Result<Finding, Fail> {
    let mut kept = None;
    let status = call(rt, alloc, line, TREFOILS, gate, &mut kept)?;
    search_of(status, kept)
}

/// What happened to the book of a search.
fn history_of(finding: &Finding) -> &[Event] {
    finding.book.history()
}

/// How many entries the book of a search has.
fn entries_of(finding: &Finding) -> u64 {
    u64::from(finding.book.len())
}

/// How many claims of a worker there are in a history.
fn claims(history: &[Event], of: u32) -> u64 {
    let mut count: u64 = 0;
    for event in history {
        if matches!(*event, Event::Claim { worker } if worker == of) {
            count = count.saturating_add(1);
        }
    }
    count
}

/// How many claims are those of worker 0, and how many those of worker 1.
fn claims_of_two(finding: &Finding) -> (u64, u64) {
    let history = history_of(finding);
    (claims(history, 0), claims(history, 1))
}

/// Whether so many workers, each by a claim at least, claimed all entries of a search.
fn have_claimed(finding: &Finding, workers: u32) -> bool {
    let history = history_of(finding);
    let mut of_all: u64 = 0;
    for worker in 0..workers {
        let made = claims(history, worker);
        if made == 0 {
            return false;
        }
        of_all = of_all.saturating_add(made);
    }
    of_all == entries_of(finding)
}

/// Whether each of so many workers claimed an entry.
fn each_has_claimed(history: &[Event], workers: u32) -> bool {
    for worker in 0..workers {
        if claims(history, worker) == 0 {
            return false;
        }
    }
    true
}

/// Whether neither of the first two entries was settled before both were claimed.
fn begins_with_two_claims(history: &[Event]) -> bool {
    history.len() > 1
        && matches!(history[0], Event::Claim { .. })
        && matches!(history[1], Event::Claim { .. })
}

#[test]
fn two_workers_of_a_call_are_at_one_book_at_once(rt: HostRuntime) -> Result<(), Fail> {
    let gate = Meeting::new(0, 2);
    let finding = search_at(&rt, rt.alloc(), "knot decide --workers 2 --spare 1", &gate)?;
    assert_eq!(rt; gate.seen(), (1, 0));
    assert_eq!(rt; claims_of_two(&finding), gate.passes());
    assert!(rt; is_exhausted(&finding));
    assert!(rt; have_claimed(&finding, 2));
    assert!(rt; begins_with_two_claims(history_of(&finding)));
    Ok(())
}

#[test]
fn three_workers_of_a_call_are_at_one_book_at_once(rt: HostRuntime) -> Result<(), Fail> {
    let gate = Meeting::new(2, 3);
    let finding = search_at(&rt, rt.alloc(), "knot decide --workers 3", &gate)?;
    assert_eq!(rt; gate.seen(), (2, 0));
    assert!(rt; have_claimed(&finding, 3));
    Ok(())
}

/// By the 20th pass twelve entries are settled, so there are eight to claim at once, and the budget is far off.
#[test]
fn eight_workers_of_a_call_are_at_one_book_at_once(rt: HostRuntime) -> Result<(), Fail> {
    let gate = Meeting::new(19, 8);
    let line = "knot decide --workers 8 --spare 2 --budget 5000";
    let finding = search_at(&rt, rt.alloc(), line, &gate)?;
    assert_eq!(rt; gate.seen(), (7, 0));
    assert!(rt; each_has_claimed(history_of(&finding), 8));
    Ok(())
}

#[test]
fn one_worker_passes_no_gate(rt: HostRuntime) -> Result<(), Fail> {
    let gate = Meeting::new(0, 2);
    let _finding = search_at(&rt, rt.alloc(), "knot decide --workers 1", &gate)?;
    assert!(rt; gate.is_unused());
    Ok(())
}
