// Orders that a search finds.

ghost use Rattle.std.specs.Prelude.{◌≡◌, []};

use crate::toy::{Act, Toy};
use Act::{Get, Pause, Put};
use order_search::{End, Limits, Search, Step, Tip};
use std::alloc::{AllocError, Global};
use std::test::Fail;

// The most records that any of these searches proposes.
const MOST: usize = 32;

// What a search over a machine that has taken nothing proposes, and how it ends.
fn proposed<T: Tip>(
    alloc: Global,
    tip: &mut T,
    cores: usize,
    limits: Limits,
) -> Result<(Vec<usize>, Option<End>), AllocError>
    requires { T.undecided tip.old ≡ [] }
{
    let mut search = Search::new(alloc, cores, limits)?;
    let mut order: Vec<usize> = Vec::new(alloc);
    for _ in 0..MOST {
        match search.next(tip)? {
            Step::Next(core) => order.push(core)?,
            Step::Over(end) => return Ok((order, Some(end))),
        }
    }
    Ok((order, None))
}

// A toy, how far the search may go, and what it is to propose.
struct Case<'a> {
    name: &'a str,
    lanes: &'a [&'a [Act]],
    window: usize,
    effort: u64,
    order: &'a [usize],
    end: End,
}

// The limits of a search that may go far.
const FAR: usize = 100;

const MUCH: u64 = 100;

// What the searches propose.
const CASES: [Case<'static>; 10] = [
    Case {
        name: "no record",
        lanes: &[&[], &[]],
        window: FAR,
        effort: MUCH,
        order: &[],
        end: End::Whole,
    },
    Case {
        name: "one core",
        lanes: &[&[Put(1), Get(1)]],
        window: FAR,
        effort: MUCH,
        order: &[0, 0],
        end: End::Whole,
    },
    Case {
        name: "what no core sees comes first",
        lanes: &[&[Put(1)], &[Pause, Pause]],
        window: FAR,
        effort: MUCH,
        order: &[1, 1, 0],
        end: End::Whole,
    },
    Case {
        name: "the core whose time is least",
        lanes: &[&[Put(1), Put(3)], &[Put(2)], &[Get(1), Get(2), Get(3)]],
        window: FAR,
        effort: MUCH,
        order: &[0, 1, 2, 0, 2, 2],
        end: End::Whole,
    },
    Case {
        name: "a number that waits for another",
        lanes: &[&[Put(1)], &[Put(2)], &[Get(2), Get(1)]],
        window: FAR,
        effort: MUCH,
        order: &[1, 0, 2, 2],
        end: End::Whole,
    },
    Case {
        name: "what has left the window is decided",
        lanes: &[&[Put(1)], &[Put(2)], &[Get(2), Get(1)]],
        window: 1,
        effort: MUCH,
        order: &[0, 1],
        end: End::Stuck,
    },
    Case {
        name: "no order",
        lanes: &[&[Put(1)], &[Get(2)]],
        window: FAR,
        effort: MUCH,
        order: &[0],
        end: End::Stuck,
    },
    Case {
        name: "the longest beginning",
        lanes: &[&[Put(1)], &[Put(2), Get(1), Get(9)]],
        window: FAR,
        effort: MUCH,
        order: &[0, 1, 1],
        end: End::Stuck,
    },
    Case {
        name: "no effort",
        lanes: &[&[Put(1)]],
        window: FAR,
        effort: 0,
        order: &[],
        end: End::EffortUsed,
    },
    Case {
        name: "too little effort to go back",
        lanes: &[&[Put(1)], &[Put(2)], &[Get(2), Get(1)]],
        window: FAR,
        effort: 1,
        order: &[0, 1],
        end: End::EffortUsed,
    },
];

#[test]
fn a_search_proposes_an_order(rt: HostRuntime) -> Result<(), Fail> {
    let alloc = rt.alloc();
    for case in CASES.iter() {
        let mut toy = Toy::new(alloc, case.lanes)?;
        let limits = Limits {
            window: case.window,
            effort: case.effort,
        };
        let found = proposed(alloc, &mut toy, case.lanes.len(), limits)?;
        let name = case.name;
        assert!(rt; found.0.as_slice() == case.order, "{name}");
        assert!(rt; found.1 == Some(case.end), "{name}");
    }
    Ok(())
}
