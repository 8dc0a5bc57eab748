// Rules files: what they say, why they are refused, and their limits.

use crate::options_of_rules::call_of;
use apex_types::View;
use asked_rules::RuleFault::{
    self, BadName, Empty, Missing, NotToml, TooDeep, TooMany, UnknownField, UnknownKey,
    UnknownName, WrongType,
};
use asked_rules::{FIELD_NAMES, RulesFault, read};
use std::alloc::Global;
use std::test::Fail;

// The number of SEND_BUFFER.
const SEND_BUFFER: i64 = 16;

// A rules file with one rule, which holds for what this says.
fn rule_text(alloc: Global, holds: &str) -> Result<Vec<u8>, Fail> {
    let mut text = Vec::new(alloc);
    text.extend_from_slice(b"[[rule]]\nname = \"r\"\nholds = ")?;
    text.extend_from_slice(holds.as_bytes())?;
    Ok(text)
}

// A rules file with one rule: a comparison under this many levels of `not`.
fn negated_text(alloc: Global, count: usize) -> Result<Vec<u8>, Fail> {
    let mut text = rule_text(alloc, "")?;
    for _ in 0..count {
        text.extend_from_slice(b"{ not = ")?;
    }
    text.extend_from_slice(b"{ field = \"core\", equal = 1 }")?;
    for _ in 0..count {
        text.extend_from_slice(b" }")?;
    }
    Ok(text)
}

// A rules file with one rule: this many comparisons with `or` between them.
fn listed_text(alloc: Global, count: usize) -> Result<Vec<u8>, Fail> {
    let mut text = rule_text(alloc, "{ or = [")?;
    for _ in 0..count {
        text.extend_from_slice(b"{ field = \"core\", equal = 1 },")?;
    }
    text.extend_from_slice(b"] }")?;
    Ok(text)
}

fn refusal(alloc: Global, text: &[u8]) -> Option<RulesFault> {
    match read(alloc, text) {
        Ok(_) => None,
        Err(fault) => Some(fault),
    }
}

// What a rule that holds for what this says answers for a view.
fn answer(alloc: Global, holds: &str, view: &View) -> Result<Option<bool>, Fail> {
    match read(alloc, &rule_text(alloc, holds)?) {
        Ok(file) => Ok(
            file.rules
                .first()
                .map(|rule| rule.relation.holds(view, &[])),
        ),
        Err(_) => Ok(None),
    }
}

// Two rules keep their order, their names and what they say.
#[test]
fn reads_two_rules(rt: HostRuntime) -> Result<(), Fail> {
    let text = b"
        [[rule]]
        name = \"partition 1 is quick\"
        holds = { or = [ { not = { field = \"part\", equal = 1 } }, { field = \"elapsed\", less = 100 } ] }

        [[rule]]
        name = \"no buffers in partition 0\"
        holds = { not = { and = [ { field = \"part\", equal = 0 }, { field = \"service\", equal = \"SEND_BUFFER\" } ] } }
    ";
    let rules = match read(rt.alloc(), text) {
        Ok(file) => file.rules,
        Err(fault) => panic!(rt; "{fault}"),
    };
    assert_eq!(rt; rules.len(), 2);
    assert_eq!(rt; rules[0].name.as_str(), "partition 1 is quick");
    assert_eq!(rt; rules[1].name.as_str(), "no buffers in partition 0");
    let view = call_of(SEND_BUFFER);
    assert_eq!(rt; rules[0].relation.holds(&view, &[]), true);
    assert_eq!(rt; rules[1].relation.holds(&view, &[]), false);
    let slow = View {
        part: 1,
        elapsed: 100,
        ..view
    };
    assert_eq!(rt; rules[0].relation.holds(&slow, &[]), false);
    assert_eq!(rt; rules[1].relation.holds(&slow, &[]), true);
    Ok(())
}

// Each field is compared by each comparison: below its number, at it and above it.
#[test]
fn compares_each_field(rt: HostRuntime) -> Result<(), Fail> {
    let heap: Global = rt.alloc();
    let view = View {
        val: 4,
        elapsed: 9,
        woken: 2,
        ..call_of(SEND_BUFFER)
    };
    for (field, number) in [
        ("kind", 0i64),
        ("core", 1),
        ("time", 7),
        ("part", 0),
        ("proc", 3),
        ("service", 16),
        ("prio", 10),
        ("out", 7),
        ("val", 4),
        ("elapsed", 9),
        ("woken", 2),
    ] {
        for (comparison, below, at, above) in [
            ("less", false, false, true),
            ("equal", false, true, false),
            ("greater", true, false, false),
        ] {
            for (against, expected) in [
                (number.saturating_sub(1), below),
                (number, at),
                (number.saturating_add(1), above),
            ] {
                let holds = format!(in heap;
                    "{{ field = \"{field}\", {comparison} = {against} }}"
                )?;
                assert_eq!(rt; answer(heap, &holds, &view)?, Some(expected), "{holds}");
            }
        }
    }
    Ok(())
}

// Each name that is given to a person as that of a field is read as one.
#[test]
fn knows_each_field(rt: HostRuntime) -> Result<(), Fail> {
    let heap: Global = rt.alloc();
    for name in FIELD_NAMES {
        let holds = format!(in heap; "{{ field = \"{name}\", equal = 0 }}")?;
        let found = refusal(heap, &rule_text(heap, &holds)?);
        assert_eq!(rt; found, None, "{name}");
    }
    Ok(())
}

// Kinds, services and outcomes have the names that recordings use; the last one is that of the number.
#[test]
fn knows_names(rt: HostRuntime) -> Result<(), Fail> {
    let heap: Global = rt.alloc();
    for (field, name, number) in [
        ("kind", "call", 0),
        ("kind", "ret", 1),
        ("kind", "disp", 2),
        ("kind", "tick", 3),
        ("kind", "arrive", 4),
        ("kind", "depart", 5),
        ("kind", "err", 6),
        ("service", "CREATE_PROCESS", 1),
        ("service", "SEND_BUFFER", 16),
        ("service", "RECEIVE_QUEUING_MESSAGE", 37),
        ("service", "GET_BUFFER_ID", 38),
        ("service", "GET_QUEUING_PORT_STATUS", 51),
        ("service", "GET_PARTITION_STATUS", 52),
        ("service", "REPLENISH", 63),
        ("out", "NO_ERROR", 0),
        ("out", "TIMED_OUT", 6),
        ("out", "wait", 7),
        ("out", "none", 8),
    ] {
        let view = View {
            kind: number,
            service: number,
            out: number,
            ..call_of(SEND_BUFFER)
        };
        let holds = format!(in heap; "{{ field = \"{field}\", equal = \"{name}\" }}")?;
        assert_eq!(rt; answer(heap, &holds, &view)?, Some(true), "{holds}");
    }
    Ok(())
}

// A fault of the only rule.
#[test]
fn refuses_rules(rt: HostRuntime) -> Result<(), Fail> {
    let heap: Global = rt.alloc();
    for (holds, fault) in [
        ("3", WrongType),
        ("{}", Missing),
        ("{ field = \"part\" }", Missing),
        ("{ equal = 3 }", Missing),
        ("{ field = 3, equal = 3 }", WrongType),
        ("{ field = \"Part\", equal = 3 }", UnknownField),
        ("{ field = \"part\", equal = 3.0 }", WrongType),
        ("{ field = \"part\", equal = \"call\" }", UnknownName),
        ("{ field = \"kind\", equal = \"START\" }", UnknownName),
        ("{ field = \"service\", equal = \"NO_ERROR\" }", UnknownName),
        ("{ field = \"out\", equal = \"START\" }", UnknownName),
        ("{ field = \"part\", equal = 3, less = 4 }", UnknownKey),
        (
            "{ not = { field = \"part\", equal = 3 }, field = \"part\" }",
            UnknownKey,
        ),
        ("{ not = [] }", WrongType),
        ("{ and = { field = \"part\", equal = 3 } }", WrongType),
        ("{ and = [] }", Empty),
        ("{ or = [] }", Empty),
        ("{ field = \"part\", equal = 3 }\nnote = 1", UnknownKey),
    ] {
        let expected = Some(RulesFault::Rule { rule: 0, fault });
        assert_eq!(rt;
            refusal(heap, &rule_text(heap, holds)?),
            expected,
            "{holds}"
        );
    }
    Ok(())
}

// A fault of the text outside the rules, or of a rule after others.
#[test]
fn refuses_texts(rt: HostRuntime) -> Result<(), Fail> {
    let heap: Global = rt.alloc();
    for (text, fault) in [
        ("rule = ", NotToml),
        ("", Missing),
        ("[[rules]]", Missing),
        ("rule = []\nrules = []", UnknownKey),
        ("[rule]", WrongType),
    ] {
        assert_eq!(rt;
            refusal(heap, text.as_bytes()),
            Some(RulesFault::File(fault))
        );
    }
    assert_eq!(rt;
        refusal(heap, b"name = \"\xFF\""),
        Some(RulesFault::File(NotToml))
    );
    for (text, rule, fault) in [
        ("{ name = \"\", holds = {} }", 0, BadName),
        (
            "{ name = \"r\", holds = { field = \"part\", less = 2 } }, 3",
            1,
            WrongType,
        ),
        (
            "{ name = \"r\", holds = { field = \"part\", less = 2 } }, { name = \"s\" }",
            1,
            Missing,
        ),
    ] {
        let text = format!(in heap; "rule = [{text}]")?;
        assert_eq!(rt;
            refusal(heap, text.as_bytes()),
            Some(RulesFault::Rule { rule, fault })
        );
    }
    assert_eq!(rt; refusal(heap, b"rule = []"), None);
    Ok(())
}

// The most levels, relations of a list, rules and bytes are accepted, and one more is refused.
#[test]
fn keeps_limits(rt: HostRuntime) -> Result<(), Fail> {
    let heap: Global = rt.alloc();
    let [too_deep, too_long] = [TooDeep, TooMany].map(|fault| RulesFault::Rule { rule: 0, fault });
    assert_eq!(rt; refusal(heap, &negated_text(heap, 15)?), None);
    assert_eq!(rt; refusal(heap, &negated_text(heap, 16)?), Some(too_deep));
    let not_toml = RulesFault::File(NotToml);
    assert_eq!(rt; refusal(heap, &negated_text(heap, 80)?), Some(not_toml));
    assert_eq!(rt; refusal(heap, &listed_text(heap, 64)?), None);
    assert_eq!(rt; refusal(heap, &listed_text(heap, 65)?), Some(too_long));
    let too_many = RulesFault::File(TooMany);
    let mut rules = Vec::new(heap);
    for _ in 0..1024 {
        rules.extend_from_slice(
            b"[[rule]]\nname = \"r\"\nholds = { field = \"part\", less = 2 }\n",
        )?;
    }
    assert_eq!(rt; refusal(heap, &rules), None);
    rules.extend_from_slice(b"[[rule]]")?;
    assert_eq!(rt; refusal(heap, &rules), Some(too_many));
    let mut text = Vec::new(heap);
    text.extend_from_slice(b"rule = []")?;
    for _ in text.len()..1_048_576 {
        text.push(b' ')?;
    }
    assert_eq!(rt; refusal(heap, &text), None);
    text.push(b' ')?;
    assert_eq!(rt; refusal(heap, &text), Some(too_many));
    Ok(())
}
