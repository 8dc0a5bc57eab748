// How a search ended, in words.

use order_run::{BrokenRule, Proposal};
use std::alloc::Global;
use wording::Words;

/// Whether an order was found, of how many records, and if not, up to which place the records go together; and which rule is broken first,
/// and where.
pub fn words_of_proposal(alloc: Global, proposal: &Proposal) -> Words {
    let mut words = Words::new(alloc);
    match proposal {
        Proposal::Found { records, broken } => {
            if *records == 1 {
                words.say("an order was found, which has the one record");
            } else {
                words.say(format_args!("an order was found, which has all {records} records"));
            }
            if let Some(BrokenRule { pos, rule }) = broken {
                let place = pos.number();
                words.say(format_args!(", but breaks rule {rule} at place {place}"));
            }
        }
        Proposal::NotFound { refused, broken } => {
            words.say(format_args!(
                "no order was found: the records go together up to place {}, where none can follow",
                refused.pos.number()
            ));
            if let Some(BrokenRule { pos, rule }) = broken {
                let place = pos.number();
                words.say(format_args!("; they break rule {rule} at place {place}"));
            }
        }
    }
    words
}

/// That the certificate could not be written.
pub fn words_of_unwritten_order(alloc: Global) -> Words {
    let mut words = Words::new(alloc);
    words.say("standard output could not be written");
    words
}
