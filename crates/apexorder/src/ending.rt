// The ends that only this program has.

ghost use Rattle.std.specs.Prelude.{◌≡◌};
ghost use Rattle.apexorder.specs.Endings.{ending_of, own_status_of, own_text_of, refusing};

use order_run::{Proposal, ProposalFault};
use program_ends::{Ending, OwnEnd, UNWRITTEN, out_of_memory};
use report::{CheckFault, status_of_outcome, write_report};
use sink::{Sink, WriteFault, put_all};

/// How a run ends that was not kept from what was requested.
#[derive(Clone, Copy, Debug, Drop)]
pub enum OrderEnd {
    /// All records were put in an order. In it they are a run of the machine, or the first of them are, up to a place; and a rule may be
    /// broken.
    Proposed(Proposal),
    /// The inputs are refused, or memory is.
    Refused(CheckFault),
    /// Standard output could not be written.
    Unwritten,
    /// The version was requested.
    Version,
    /// The help was requested.
    Help,
}

impl OwnEnd for OrderEnd {
    ghost refusing = { refusing };

    ghost status_of = { own_status_of };

    ghost text_of = { own_text_of };

    fn refusing(fault: CheckFault) -> OrderEnd {
        OrderEnd::Refused(fault)
    }

    // 0 for an order in which no rule is broken, the version or the help, 1 if a rule is broken or no order was found.
    fn status(&self) -> u8 {
        match self {
            OrderEnd::Proposed(Proposal::Found { broken: None, .. }) => 0,
            OrderEnd::Proposed(_) => 1,
            OrderEnd::Refused(fault) => status_of_outcome(&Err(*fault)),
            OrderEnd::Version | OrderEnd::Help => 0,
            OrderEnd::Unwritten => UNWRITTEN,
        }
    }

    // The line of a refusal, as a check prints it.
    fn write_text<W: Sink>(&self, w: &mut W) -> Result<(), WriteFault> {
        match self {
            OrderEnd::Refused(fault) => write_report(w, &Err(*fault)),
            OrderEnd::Proposed(_) | OrderEnd::Unwritten | OrderEnd::Version | OrderEnd::Help =>
                put_all(w, b""),
        }
    }
}

/// The end without a proposal.
pub fn refused_by(fault: ProposalFault) -> Ending<OrderEnd>
    ensures { result ≡ ending_of fault }
{
    match fault {
        ProposalFault::Input(fault) => Ending::Own(OrderEnd::Refused(CheckFault::Input(fault))),
        ProposalFault::Memory => out_of_memory(),
        ProposalFault::Output => Ending::Own(OrderEnd::Unwritten),
    }
}
