// The recordings and the certificate, as texts that grow.

use crate::row::{add_pair, add_record};
use apex_types::{CoreId, Format, Record};
use std::alloc::{AllocError, Global};

// The recording of a core, and how many records it has.
#[derive(Drop)]
struct Lane {
    text: Vec<u8>,
    count: u32,
}

/// The recordings of all cores, and the certificate that lists their records in the order in which they were added.
#[derive(Drop)]
pub struct Texts {
    format: Format,
    lanes: Vec<Lane>,
    certificate: Vec<u8>,
}

/// The text of each recording, core 0 first, and that of the certificate.
#[derive(Debug, Drop)]
pub struct RunTexts {
    pub recordings: Vec<Vec<u8>>,
    pub certificate: Vec<u8>,
}

impl Texts {
    /// Empty recordings of so many cores in this format, and an empty certificate.
    ///
    /// `AllocError` if memory is refused.
    pub fn new(alloc: Global, format: Format, cores: u8) -> Result<Texts, AllocError> {
        let mut lanes = Vec::new(alloc);
        for _ in 0..cores {
            lanes.push(Lane {
                text: Vec::new(alloc),
                count: 0,
            })?;
        }
        Ok(Texts {
            format,
            lanes,
            certificate: Vec::new(alloc),
        })
    }

    /// The number of the next record of a core.
    pub fn next(&self, core: CoreId) -> u32 {
        match self.lanes.get(usize::from(core.number())) {
            Some(lane) => lane.count,
            None => 0,
        }
    }

    /// Adds a record of a core, and lists it.
    ///
    /// `AllocError` if memory is refused; the texts must then be given up.
    pub fn add(&mut self, core: CoreId, record: &Record) -> Result<(), AllocError> {
        let format = self.format;
        let Some(lane) = self.lanes.get_mut(usize::from(core.number())) else {
            return Ok(());
        };
        add_record(&mut lane.text, format, record)?;
        lane.count = lane.count.saturating_add(1);
        add_pair(&mut self.certificate, core.number(), record.seq)
    }

    /// The texts.
    ///
    /// `AllocError` if memory is refused.
    pub fn into_run(self, alloc: Global) -> Result<RunTexts, AllocError> {
        let Texts {
            format: _,
            lanes,
            certificate,
        } = self;
        let mut recordings = Vec::new(alloc);
        for lane in lanes {
            recordings.push(lane.text)?;
        }
        Ok(RunTexts {
            recordings,
            certificate,
        })
    }
}
