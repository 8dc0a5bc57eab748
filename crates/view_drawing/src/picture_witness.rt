// The witness of a picture.

use answer_words::Explainer;
use apex_types::{Cause, Ordered, View};
use module_config::Config;
use piece_check::Piece;
use report::{Asked, Witness};
use run_view::{Lawful, lawful_of};
use std::alloc::{AllocError, Global};

/// The witness of a picture: it lets the explainer explain what decides a run, and keeps what would have been lawful there.
#[derive(Drop)]
pub struct PictureWitness<'a> {
    alloc: Global,
    explainer: &'a mut Explainer,
    lawful: Result<Vec<Lawful>, AllocError>,
}

impl<'a> PictureWitness<'a> {
    /// A witness that has seen nothing yet.
    pub fn new(alloc: Global, explainer: &'a mut Explainer) -> PictureWitness<'a> {
        PictureWitness {
            alloc,
            explainer,
            lawful: Ok(Vec::new(alloc)),
        }
    }

    /// What would have been lawful, which is nothing if no record was rejected.
    ///
    /// `AllocError` if memory was refused for it.
    pub fn into_lawful(self) -> Result<Vec<Lawful>, AllocError> {
        let PictureWitness {
            alloc: _,
            explainer: _,
            lawful,
        } = self;
        lawful
    }
}

impl Witness for PictureWitness<'_> {
    fn refused(&mut self, config: &Config, piece: &Piece, ordered: &Ordered, cause: Cause) {
        self.explainer
            .explain_rejected(config, piece, ordered, cause);
        self.lawful = lawful_of(self.alloc, config, piece, ordered, cause);
    }

    fn broken(
        &mut self,
        _config: &Config,
        asked: &Asked<'_>,
        ordered: &Ordered,
        view: &View,
        _rule: usize,
    ) {
        self.explainer.explain_broken(asked, ordered, view);
    }
}
