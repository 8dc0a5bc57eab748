// Rules that options request: what their texts give, their numbers, and their relations.

use apex_types::{Service, View};
use asked_rules::{RuleOption, RuleOptions, relations_of};
use std::alloc::Global;
use std::test::Fail;

/// The view of a call of the service of this number in partition 0, at time 7.
pub fn call_of(service: i64) -> View {
    View {
        kind: 0,
        core: 1,
        time: 7,
        part: 0,
        proc: 3,
        service,
        prio: 10,
        out: 7,
        val: -1,
        elapsed: -1,
        woken: 0,
    }
}

fn return_after(elapsed: i64) -> View {
    View {
        kind: 1,
        elapsed,
        ..call_of(24)
    }
}

// What texts give: a number of ticks has one text, and is at most the greatest; a service has its whole name.
#[test]
fn reads_values(rt: HostRuntime) -> Result<(), Fail> {
    for (text, expected) in [
        ("0", Some(0)),
        ("4294967295", Some(4_294_967_295)),
        ("4294967296", None),
        ("04", None),
        ("-1", None),
        ("", None),
    ] {
        let given = expected.map(|ticks| RuleOptions {
            max_elapsed: Some(ticks),
            forbidden: None,
        });
        assert_eq!(rt; RuleOptions::read(Some(text.as_bytes()), None), given);
    }
    for (text, expected) in [
        ("SIGNAL_SEMAPHORE", Some(Service::SignalSemaphore)),
        ("STOP", Some(Service::Stop)),
        (
            "GET_QUEUING_PORT_STATUS",
            Some(Service::GetQueuingPortStatus),
        ),
        ("stop", None),
        ("NO_ERROR", None),
        ("", None),
    ] {
        let given = expected.map(|service| RuleOptions {
            max_elapsed: None,
            forbidden: Some(service),
        });
        assert_eq!(rt; RuleOptions::read(None, Some(text.as_bytes())), given);
    }
    assert_eq!(rt; RuleOptions::read(Some(b"x"), Some(b"STOP")), None);
    assert_eq!(rt; RuleOptions::read(Some(b"1"), Some(b"x")), None);
    Ok(())
}

// The first rule is about ticks, the second about a service; a rule that is not given has no number.
#[test]
fn numbers_the_options(rt: HostRuntime) -> Result<(), Fail> {
    let heap: Global = rt.alloc();
    let both = RuleOptions {
        max_elapsed: Some(4),
        forbidden: Some(Service::SignalSemaphore),
    };
    let (ticks, service) = (
        RuleOption::MaxElapsed(4),
        RuleOption::Forbid(Service::SignalSemaphore),
    );
    assert_eq!(rt;
        both.in_order(heap)?.as_slice(),
        [ticks, service].as_slice()
    );
    let one = RuleOptions {
        max_elapsed: None,
        ..both
    };
    assert_eq!(rt; one.in_order(heap)?.as_slice(), [service].as_slice());
    Ok(())
}

// SIGNAL_SEMAPHORE has number 24.
#[test]
fn asks_for_relations(rt: HostRuntime) -> Result<(), Fail> {
    let heap: Global = rt.alloc();
    let options = [
        RuleOption::MaxElapsed(4),
        RuleOption::Forbid(Service::SignalSemaphore),
    ];
    let relations = relations_of(heap, &options)?;
    assert_eq!(rt; relations.len(), 2);
    for (view, within, allowed) in [
        (return_after(4), true, true),
        (return_after(5), false, true),
        (call_of(24), true, false),
        (call_of(23), true, true),
    ] {
        assert_eq!(rt; relations[0].holds(&view, &[]), within);
        assert_eq!(rt; relations[1].holds(&view, &[]), allowed);
    }
    Ok(())
}
