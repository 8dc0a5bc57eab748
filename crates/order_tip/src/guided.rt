// The exploration as the guide of a run.

use crate::exploration::Exploration;
use crate::watcher::Watcher;
use apex_types::Record;
use csv_rows::TextSource;
use module_config::Config;
use order_run::Guide;
use placement::PlacingFault;

/// The exploration as the guide of a run, with its watcher.
#[derive(Drop)]
pub struct Guided<'a, 'w, R: TextSource, V> {
    pub(crate) config: &'a Config,
    pub(crate) exploration: Exploration<'a, R>,
    pub(crate) watcher: &'w mut V,
}

impl<'a, 'w, R: TextSource + Drop, V: Watcher> Guide for Guided<'a, 'w, R, V> {
    ghost left = { λ guided. guided.exploration.machine.outlook.lanes };

    fn next(&mut self) -> Result<Option<usize>, PlacingFault> {
        let answer = self.exploration.next(self.config, &mut *self.watcher);
        self.watcher.decided(self.exploration.decided());
        match answer {
            Ok(core) => Ok(core),
            Err(_) => Err(self.exploration.fault()),
        }
    }

    fn take(&mut self, core: usize) -> Result<Option<Record>, PlacingFault> {
        self.exploration.hand_out(core)
    }
}
