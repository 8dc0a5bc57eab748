// The files of a run.

/// The files of a run, as a command line names them.
#[derive(Debug, Drop)]
pub struct InputNames {
    /// The configuration.
    pub config: String,
    /// The rules file, if there is one.
    pub rules: Option<String>,
    /// The certificate, which proposes the order.
    pub order: String,
    /// The recordings, one for each core, core 0 first.
    pub cores: Vec<String>,
}
