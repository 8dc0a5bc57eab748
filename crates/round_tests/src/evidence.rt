// What shows that a demand of a piece fails.

use crate::records::config_of;
use crate::texts::MODULE;
use apex_types::{Body, Cause, CoreId, Ordered, PartId, Place, ProcId, Record, Who};
use piece_check::Evidence;
use std::alloc::Global;
use std::test::Fail;
use verdict_merge::start_pieces;

// A process of partition 1.
fn process(number: u32) -> Who {
    Who {
        part: PartId::new(1),
        proc: ProcId::new(number),
    }
}

// The choice and the occupant that partition 1 shows at cold start, if core 1 is dispatched to a process that does not exist.
fn shown_choice(alloc: Global) -> Option<(Option<Who>, Option<Who>)> {
    let config = config_of(alloc, MODULE, 2)?;
    let pieces = start_pieces(alloc, &config).ok()?;
    let dispatch = Ordered {
        pos: Place::new(0),
        core: CoreId::new(1),
        rec: Record {
            seq: 0,
            body: Body::Disp(Some(process(3))),
        },
    };
    match pieces.get(2)?.evidence(&config, &dispatch, Cause::Choice) {
        Evidence::Choice { choice, occupant } => Some((choice, occupant)),
        _ => None,
    }
}

#[test]
fn the_choice_is_shown_beside_the_occupant(rt: HostRuntime) -> Result<(), Fail> {
    let shown = shown_choice(rt.alloc());
    assert_eq!(rt; shown, Some((Some(process(0)), None)));
    Ok(())
}
