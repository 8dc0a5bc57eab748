// The options that are given.

ghost use Rattle.std.specs.Prelude.{◌≡◌, IfOk, option_map};
ghost use Rattle.apex_types.specs.declared.limits.TheConstants.{GREATEST_OPTION};
ghost use Rattle.csv_rows.specs.Decimal.{decimal};
ghost use Rattle.asked_rules.specs.Options.{in_order, values_of};

use crate::option::RuleOption;
use apex_types::Service;
use apex_types::limits::GREATEST_OPTION;
use csv_rows::read_decimal;
use record_read::find_service;
use std::alloc::{AllocError, Global};

/// The values of the options that are given.
#[derive(Clone, Copy, Debug, PartialEq, Eq)]
pub struct RuleOptions {
    /// The value of `--max-elapsed`, in ticks.
    pub max_elapsed: Option<u32>,
    /// The value of `--forbid`.
    pub forbidden: Option<Service>,
}

impl RuleOptions {
    /// The values of these texts, if they are given: ticks from 0 to 4,294,967,295 without leading zeros, and a service by its name.
    /// None if a text is no such value. Takes no memory.
    pub fn read(max_elapsed: Option<&[u8]>, forbidden: Option<&[u8]>) -> Option<RuleOptions>
        ensures { result ≡ values_of (option_map (λ text. text.now) max_elapsed.entry) (option_map (λ text. text.now) forbidden.entry) }
    {
        let max_elapsed = match max_elapsed {
            Some(text) => Some(read_ticks(text)?),
            None => None,
        };
        let forbidden = match forbidden {
            Some(text) => Some(find_service(text)?),
            None => None,
        };
        Some(RuleOptions {
            max_elapsed,
            forbidden,
        })
    }

    /// The options that are given, in the order in which their rules are numbered: `--max-elapsed`, then `--forbid`.
    pub fn in_order(self, alloc: Global) -> Result<Vec<RuleOption>, AllocError>
        ensures { IfOk result (λ options. options.items ≡ in_order self) }
    {
        let mut options = Vec::new(alloc);
        if let Some(ticks) = self.max_elapsed {
            options.push(RuleOption::MaxElapsed(ticks))?;
        }
        if let Some(service) = self.forbidden {
            options.push(RuleOption::Forbid(service))?;
        }
        Ok(options)
    }
}

// The ticks that a text gives.
fn read_ticks(text: &[u8]) -> Option<u32>
    ensures { result ≡ decimal GREATEST_OPTION text.now }
{
    match read_decimal(text, GREATEST_OPTION as u64) {
        Some(ticks) => Some(ticks as u32),
        None => None,
    }
}
