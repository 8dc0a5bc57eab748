// The files of a search.

/// The files of a search, as a command line names them.
#[derive(Debug, Drop)]
pub struct OrderNames {
    /// The configuration.
    pub config: String,
    /// The rules file, if there is one.
    pub rules: Option<String>,
    /// The recordings, one for each core, core 0 first.
    pub cores: Vec<String>,
}
