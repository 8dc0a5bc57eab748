// What an answer rests on: the cause, the broken rule or the fault, with what that demands.

use crate::ending::CheckEnd;
use answer_words::Explainer;
use apex_types::Cause;
use placement::InputFault;
use program_ends::Ending;
use report::{CheckFault, Verdict};
use sarif_report::{ResultRule, help_of_cause, name_of_cause};
use std::alloc::{AllocError, Global};
use std::fmt::{Debug, Display};
use wording::Look;

/// The rule of an answer, as owned texts.
#[derive(Drop)]
pub struct OwnRule {
    pub id: String,
    pub help: String,
    section: String,
}

impl OwnRule {
    /// Its texts.
    pub fn texts(&self) -> ResultRule<'_> {
        ResultRule {
            id: self.id.as_str(),
            help: self.help.as_str(),
            section: self.section.as_str(),
        }
    }
}

/// The rule of the answer. None after a Yes, or if memory ran out.
pub fn rule_of(
    alloc: Global,
    ending: &Ending<CheckEnd>,
    explainer: &Explainer,
) -> Result<Option<OwnRule>, AllocError> {
    match ending {
        Ending::Own(CheckEnd::Checked { outcome, .. }) => match outcome {
            Ok(Verdict::Yes { .. }) | Err(CheckFault::Memory) => Ok(None),
            Ok(Verdict::No { cause, .. }) => Ok(Some(rule_of_cause(alloc, *cause)?)),
            Ok(Verdict::Broken { .. }) => Ok(Some(rule_of_user(alloc, explainer)?)),
            Err(CheckFault::Arguments(fault)) => {
                rule_of_fault(alloc, "arguments", fault, "docs/FORMATS.md, The report")
            }
            Err(CheckFault::Config(fault)) => rule_of_fault(
                alloc,
                "config",
                fault,
                "docs/SPECIFICATION.md, part 14; docs/FORMATS.md, The configuration",
            ),
            Err(CheckFault::Input(fault)) => rule_of_input(alloc, fault),
        },
        Ending::Own(CheckEnd::Few { .. }) => rule_of_command_line(
            alloc,
            "few",
            "The records that are judged are at least as many as --at-least requires.",
        ),
        Ending::Unopened => rule_of_command_line(
            alloc,
            "open",
            "a file cannot be opened, or the configuration or the rules file cannot be read.",
        ),
        Ending::BadRules(fault) | Ending::BadMemory { fault, .. } | Ending::BadRule { fault, .. } =>
            rule_of_fault(
                alloc,
                "rules",
                fault,
                "docs/SPECIFICATION.md, part 14; docs/FORMATS.md, Rules",
            ),
        Ending::BadUsage | Ending::Own(CheckEnd::Rows(_) | CheckEnd::Version) => Ok(None),
    }
}

// The rule of a certificate, an order or a recording that is refused.
fn rule_of_input(alloc: Global, fault: &InputFault) -> Result<Option<OwnRule>, AllocError> {
    match fault {
        InputFault::Cert { fault, .. } => rule_of_fault(
            alloc,
            "cert",
            fault,
            "docs/SPECIFICATION.md, part 14; docs/FORMATS.md, The certificate",
        ),
        InputFault::Order { fault, .. } => rule_of_fault(
            alloc,
            "order",
            fault,
            "docs/SPECIFICATION.md, part 15; docs/FORMATS.md, The certificate",
        ),
        InputFault::Row { fault, .. } => rule_of_fault(
            alloc,
            "row",
            fault,
            "docs/SPECIFICATION.md, part 14; docs/FORMATS.md, Refusals of a row",
        ),
    }
}

// The rule of a cause.
fn rule_of_cause(alloc: Global, cause: Cause) -> Result<OwnRule, AllocError> {
    let name = name_of_cause(cause);
    Ok(OwnRule {
        id: format!(in alloc; "cause/{name}")?,
        help: String::from_str(alloc, help_of_cause(cause))?,
        section: format!(in alloc; "docs/SPECIFICATION.md, part 11, cause {name}")?,
    })
}

// The user's rule that is broken.
fn rule_of_user(alloc: Global, explainer: &Explainer) -> Result<OwnRule, AllocError> {
    let name = explainer.broken_rule().shown(Look::plain());
    Ok(OwnRule {
        id: format!(in alloc; "rule/{name}")?,
        help: format!(in alloc; "The view of each record meets the rule: {name}.")?,
        section: String::from_str(alloc, "docs/SPECIFICATION.md, part 12")?,
    })
}

// A rule of the command line.
fn rule_of_command_line(
    alloc: Global,
    id: &str,
    help: &str,
) -> Result<Option<OwnRule>, AllocError> {
    Ok(Some(OwnRule {
        id: String::from_str(alloc, id)?,
        help: String::from_str(alloc, help)?,
        section: String::from_str(alloc, "docs/FORMATS.md, The command line")?,
    }))
}

// The rule of a fault of this kind of input.
fn rule_of_fault<D: Debug + Display>(
    alloc: Global,
    kind: &str,
    fault: &D,
    section: &str,
) -> Result<Option<OwnRule>, AllocError> {
    Ok(Some(OwnRule {
        id: format!(in alloc; "{kind}/{fault:?}")?,
        help: format!(in alloc; "{fault}.")?,
        section: String::from_str(alloc, section)?,
    }))
}
