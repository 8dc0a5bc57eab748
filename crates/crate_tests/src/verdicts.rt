// The verdict at once, without rounds, and the last records before a No.

use crate::writers::Narrow;
use apex_types::{Cause, CoreId, Field, Place};
use record_read::Kind;
use report::{
    CheckFault, Last, LastItem, Open, Settings, Verdict, check, check_in_rounds, check_with_last,
    write_last,
};
use round_tests::{CONFIG, MISSED, ORDER, RECORDING, config_of, records_of, rule};
use sink::WriterSink;
use std::alloc::{AllocError, Global};
use std::sync::Wait;
use std::test::Fail;
use std::thread::Threads;
use user_rules::{Quantity, Relation, Rule};
use verdict_merge::check_plain;

const LINES: &str = "\
LAST place=3 core=0 seq=3 kind=call
LAST place=4 core=0 seq=4 kind=ret
LAST place=5 core=0 seq=5 kind=call
LAST place=6 core=0 seq=6 kind=disp
LAST place=7 core=0 seq=7 kind=call
LAST place=8 core=0 seq=8 kind=disp
LAST place=9 core=0 seq=9 kind=tick
LAST place=10 core=0 seq=10 kind=tick
";

/// With two workers, and four records ahead.
pub const SETTINGS: Settings = Settings {
    workers: 2,
    depth: 4,
};

// What is expected of the recording of the wait.
const WAITED: Verdict = Verdict::Yes { records: 14 };

// What is expected of the other: the piece of the partition rejects the tick of record 11.
fn missed() -> Verdict {
    Verdict::No {
        pos: Place::new(11),
        piece: 1,
        cause: Cause::Woken,
    }
}

// A recording under these rules, by `check_with_last`.
fn with_last<T>(
    rt: T,
    alloc: Global,
    text: &'static str,
    rules: &[Rule],
    last: &mut Last,
) -> Result<Result<Verdict, CheckFault>, AllocError>
where
    T: Threads + Wait + Sync + Copy + Send + 'static,
{
    let readers = vec![in alloc; text.as_bytes()]?;
    Ok(check_with_last(
        rt,
        alloc,
        CONFIG,
        readers,
        ORDER,
        &[],
        rules,
        SETTINGS,
        &Open,
        last,
    ))
}

#[test]
fn last_records_are_left(rt: HostRuntime) -> Result<(), Fail> {
    let alloc = rt.alloc();
    let mut last = Last::new(alloc)?;
    for (text, outcome, lines) in [(MISSED, missed(), LINES), (RECORDING, WAITED, "")] {
        let answer = with_last(rt, alloc, text, &[], &mut last)?;
        assert_eq!(rt; answer, Ok(outcome));
        let count = lines.lines().count();
        assert_eq!(rt; last.len(), count);
        assert!(rt; last.get(count).is_none());
        let mut taken = Vec::new(alloc);
        let mut sink = WriterSink::new(Narrow {
            taken: &mut taken,
            room: 1000,
        });
        assert_eq!(rt; write_last(&mut sink, &last), Ok(()));
        drop(sink);
        assert_eq!(rt; taken.as_slice(), lines.as_bytes());
    }
    Ok(())
}

#[test]
fn the_earliest_comes_first(rt: HostRuntime) -> Result<(), Fail> {
    let alloc = rt.alloc();
    let mut last = Last::new(alloc)?;
    let answer = with_last(rt, alloc, MISSED, &[], &mut last)?;
    assert_eq!(rt; answer, Ok(missed()));
    let earliest = LastItem {
        place: Place::new(3),
        core: CoreId::new(0),
        seq: 3,
        kind: Kind::Call,
    };
    assert!(rt; last.get(0).is_some_and(|item| *item == earliest));
    Ok(())
}

// A recording under these rules, by `check_plain`.
fn at_once<T>(rt: T, alloc: Global, text: &'static str, rules: &[Rule]) -> Option<Verdict>
where
    T: Threads + Wait + Copy + Send + 'static,
{
    let recordings = vec![in alloc; text.as_bytes()].ok()?;
    let records = records_of(rt, alloc, recordings, ORDER).ok()?;
    let config = config_of(alloc, CONFIG, 1)?;
    let verdict = check_plain(alloc, &config, &records, rules).ok();
    drop(config);
    verdict
}

#[test]
fn a_recording_is_judged_at_once(rt: HostRuntime) -> Result<(), Fail> {
    let alloc = rt.alloc();
    assert_eq!(rt; at_once(rt, alloc, RECORDING, &[]), Some(WAITED));
    assert_eq!(rt; at_once(rt, alloc, MISSED, &[]), Some(missed()));
    Ok(())
}

// The recording of the wait under these rules, by `check`.
fn by_check<T>(
    rt: T,
    alloc: Global,
    rules: &[Rule],
    settings: Settings,
) -> Result<Result<Verdict, CheckFault>, AllocError>
where
    T: Threads + Wait + Sync + Copy + Send + 'static,
{
    let readers = vec![in alloc; RECORDING.as_bytes()]?;
    Ok(check(
        rt,
        alloc,
        CONFIG,
        readers,
        ORDER,
        &[],
        rules,
        settings,
        &Open,
    ))
}

// The same, by `check_in_rounds`.
fn in_rounds<T>(
    rt: T,
    alloc: Global,
    rules: &[Rule],
) -> Result<Result<Verdict, CheckFault>, AllocError>
where
    T: Threads + Wait + Sync + Copy + Send + 'static,
{
    let readers = vec![in alloc; RECORDING.as_bytes()]?;
    Ok(check_in_rounds(
        rt,
        alloc,
        CONFIG,
        readers,
        ORDER,
        &[],
        rules,
        SETTINGS,
        &Open,
        5,
    ))
}

// Each of the calls under the rule that no call takes more than this many ticks until its return. One call of the recording takes three.
#[test]
fn each_call_tests_rules(rt: HostRuntime) -> Result<(), Fail> {
    let alloc = rt.alloc();
    let broken = Verdict::Broken {
        pos: Place::new(13),
        rule: 0,
    };
    let mut last = Last::new(alloc)?;
    for (ticks, verdict) in [(2i64, broken), (3, WAITED)] {
        let relation = Relation::Less(Quantity::Field(Field::Elapsed), Quantity::Number(ticks + 1));
        let rules = vec![in alloc; rule!(alloc, relation)]?;
        let answer = by_check(rt, alloc, &rules, SETTINGS)?;
        assert_eq!(rt; answer, Ok(verdict), "check");
        let answer = in_rounds(rt, alloc, &rules)?;
        assert_eq!(rt; answer, Ok(verdict), "check_in_rounds");
        let answer = with_last(rt, alloc, RECORDING, &rules, &mut last)?;
        assert_eq!(rt; answer, Ok(verdict), "check_with_last");
        let answer = at_once(rt, alloc, RECORDING, &rules);
        assert_eq!(rt; answer, Some(verdict), "check_plain");
    }
    Ok(())
}

// What breaks a rule first under one rule breaks it first under many, the last of which is that rule, by one worker and by four.
#[test]
fn many_rules_find_what_one_finds(rt: HostRuntime) -> Result<(), Fail> {
    let alloc = rt.alloc();
    for (others, workers) in [(0, 1), (0, 4), (199, 1), (199, 4)] {
        let mut rules = Vec::new(alloc);
        for _ in 0..others {
            rules.push(rule!(
                alloc,
                Relation::Less(Quantity::Field(Field::Elapsed), Quantity::Number(4))
            ))?;
        }
        let settings = Settings { workers, depth: 4 };
        let answer = by_check(rt, alloc, &rules, settings)?;
        assert_eq!(rt; answer, Ok(WAITED), "rules: {others}, workers: {workers}");
        rules.push(rule!(
            alloc,
            Relation::Less(Quantity::Field(Field::Elapsed), Quantity::Number(3))
        ))?;
        let answer = by_check(rt, alloc, &rules, settings)?;
        let broken = Verdict::Broken {
            pos: Place::new(13),
            rule: others,
        };
        assert_eq!(rt; answer, Ok(broken), "rules: {others}, workers: {workers}");
    }
    Ok(())
}
