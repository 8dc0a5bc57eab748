// A stretch of a run as a picture.

ghost use Rattle.std.specs.Prelude.{◌≡◌, ◌<◌, ◌+◌, ◌∷◌, [], List, OnOk};
ghost use Rattle.apex_types.specs.declared.record.Ordered.{Ordered};
ghost use Rattle.verdict_merge.specs.Rounds.{AllRun, AreGoing, parts_in};
ghost use Rattle.shown_run.specs.Kept.{IsKept};
ghost use Rattle.shown_run.specs.Walks.{EachRuns};
ghost use Rattle.shown_run.specs.Stretches.{IsWhole};

use crate::rows::ShownRows;
use apex_types::Ordered;
use module_config::Config;
use numbers_text::text_of;
use piece_check::Piece;
use run_numbers::Numbers;
use run_view::{Change, Followed, LastSeen, Lawful, MessageLinks, Received, Sent};
use sarif_report::name_of_cause;
use shown_run::{Rejected, Shown, Stretch, Walk};
use std::alloc::{AllocError, Global};
use std::collections::VecDeque;
use std::fs::{File, Files};
use view_picture::{Added, Picture, Status};

/// A picture, and the figures of the records in it that were accepted, in words.
#[derive(Drop)]
pub struct Drawn {
    pub picture: Picture,
    /// Empty if no record was accepted.
    pub figures: String,
}

/// Draws a stretch of a run, from the pieces before it, with what would have been lawful in place of a rejected record. The rows of its
/// records are read again from the files.
pub fn draw_stretch<R: Files<File = File>>(
    rt: &R,
    alloc: Global,
    shown: &Shown<'_>,
    stretch: Stretch,
    lawful: Vec<Lawful>,
) -> Result<Drawn, AllocError>
    requires { IsWhole shown.now.config.now stretch }
{
    let rows = rows_of(rt, alloc, shown, &stretch)?;
    drawn_with(alloc, shown.config, &rows, stretch, lawful)
}

// The picture of a stretch whose rows are these, and its figures.
fn drawn_with(
    alloc: Global,
    config: &Config,
    rows: &ShownRows<'_>,
    stretch: Stretch,
    lawful: Vec<Lawful>,
) -> Result<Drawn, AllocError>
    requires { IsWhole config.now stretch }
{
    let Stretch {
        before,
        kept,
        rejected,
        is_broken,
        after,
    } = stretch;
    let rest = Rest {
        rejected,
        lawful,
        is_broken,
        after,
    };
    let mut drawing = Drawing::new(alloc, config, before);
    drawing.draw_all(rows, kept, &rest)?;
    drawing.end(alloc)
}

// What a picture shows after the records that were accepted: the record that was rejected with what would have been lawful there, and the
// records after it.
#[derive(Drop)]
struct Rest {
    rejected: Option<Rejected>,
    lawful: Vec<Lawful>,
    is_broken: bool,
    after: Vec<Ordered>,
}

impl Rest {
    // How the records after those that were accepted, or after the one that decided, were judged.
    fn status(&self) -> Status {
        if self.rejected.is_none() && !self.is_broken {
            Status::Beyond
        } else {
            Status::After
        }
    }
}

// The rows of the records of a stretch.
fn rows_of<'a, R: Files<File = File>>(
    rt: &R,
    alloc: Global,
    shown: &Shown<'a>,
    stretch: &Stretch,
) -> Result<ShownRows<'a>, AllocError> {
    let mut records: Vec<&Ordered> = Vec::new(alloc);
    for ordered in stretch.kept.iter() {
        records.push(ordered)?;
    }
    if let Some(rejected) = &stretch.rejected {
        records.push(&rejected.ordered)?;
    }
    for ordered in stretch.after.iter() {
        records.push(ordered)?;
    }
    ShownRows::find(rt, alloc, shown.names, records.as_slice())
}

// A picture and figures that grow record by record, and the pieces that take the records.
#[derive(Drop)]
struct Drawing<'a> {
    config: &'a Config,
    walk: Walk,
    seen: LastSeen,
    links: MessageLinks,
    changes: Vec<Change>,
    picture: Picture,
    numbers: Numbers,
}

impl<'a> Drawing<'a> {
    // A picture of nothing yet, with the pieces before the first record.
    fn new(alloc: Global, config: &'a Config, walk: Walk) -> Drawing<'a>
        ensures config { result.config.now ≡ config.now }
        ensures walk { result.walk ≡ walk }
    {
        Drawing {
            config,
            walk,
            seen: LastSeen::new(alloc),
            links: MessageLinks::new(alloc),
            changes: Vec::new(alloc),
            picture: Picture::new(alloc, config.frame()),
            numbers: Numbers::new(alloc),
        }
    }

    // Adds the records that were accepted and what comes after them.
    fn draw_all<'b>(
        &mut self,
        rows: &'b ShownRows<'b>,
        kept: VecDeque<Ordered>,
        rest: &'b Rest,
    ) -> Result<(), AllocError>
        requires { (taken : List Ordered) × IsKept self.old.config.now taken self.old.walk kept.items }
    {
        self.show_first()?;
        self.accept_all(rows, kept, rest.is_broken)?;
        self.follow_all(rows, rest)
    }

    // Shows the pieces before the first record.
    fn show_first(&mut self) -> Result<(), AllocError>
        ensures config { self.new.config ≡ self.old.config }
        ensures walk { self.new.walk ≡ self.old.walk }
    {
        let pieces = self.walk.pieces();
        self.seen
            .look(self.config, pieces, None, &mut self.changes)?;
        self.picture.begin(pieces, self.changes.as_slice())?;
        Ok(())
    }

    // Adds what comes after the records that were accepted.
    fn follow_all<'b>(
        &mut self,
        rows: &'b ShownRows<'b>,
        rest: &'b Rest,
    ) -> Result<(), AllocError> {
        if let Some(rejected) = &rest.rejected {
            let added = added(rows, &rejected.ordered, Status::Rejected);
            let cause = rejected.cause;
            let lawful = rest.lawful.as_slice();
            self.picture
                .reject(&added, cause, name_of_cause(cause), lawful)?;
        }
        for ordered in rest.after.iter() {
            self.picture.follow(&added(rows, ordered, rest.status()))?;
        }
        Ok(())
    }

    // The picture, and the figures of the records that were accepted.
    fn end(self, alloc: Global) -> Result<Drawn, AllocError> {
        let figures = figures_of(alloc, self.config, &self.numbers)?;
        Ok(Drawn {
            picture: self.picture,
            figures,
        })
    }

    // Adds records that follow one another and were accepted. The last of them may break a rule.
    #[tactic(auto, using(shown_run::proofs::Kept::first_going, shown_run::proofs::Kept::first_core, shown_run::proofs::Kept::first_taken, shown_run::proofs::Kept::kept_on))]
    fn accept_all(
        &mut self,
        rows: &ShownRows<'_>,
        mut kept: VecDeque<Ordered>,
        is_broken: bool,
    ) -> Result<(), AllocError>
        requires { (taken : List Ordered) × IsKept self.old.config.now taken self.old.walk kept.items }
    {
        'records: for _ in 0..kept.len() {
            let Some(ordered) = kept.pop_front() else {
                break;
            };
            let status = status_of(is_broken, kept.is_empty());
            self.accept(rows, &ordered, status)?;
        }
        Ok(())
    }

    // Adds a record that was accepted, or that breaks a rule.
    fn accept(
        &mut self,
        rows: &ShownRows<'_>,
        ordered: &Ordered,
        status: Status,
    ) -> Result<(), AllocError>
        requires going { AreGoing self.old.config.now ordered.now.pos self.old.walk }
        requires core { ordered.now.core < self.old.config.now.cores }
        requires accepted { EachRuns self.old.config.now (parts_in self.old.walk) (ordered.now ∷ []) }
        ensures config { self.new.config ≡ self.old.config }
        ensures going { OnOk result (AreGoing self.old.config.now (ordered.now.pos + 1) self.new.walk) }
        ensures taken { OnOk result (AllRun self.old.config.now (parts_in self.old.walk) (ordered.now ∷ []) (parts_in self.new.walk)) }
    {
        self.numbers.meet(self.config, self.walk.pieces(), ordered)?;
        let Ok(()) = self.walk.take_again(self.config, ordered) else {
            return Err(AllocError);
        };
        let pieces = self.walk.pieces();
        self.numbers.accept(pieces, ordered)?;
        self.changes.clear();
        self.seen
            .look(self.config, pieces, Some(ordered), &mut self.changes)?;
        let added = added(rows, ordered, status);
        let changes = self.changes.as_slice();
        draw(
            &mut self.picture,
            &mut self.links,
            pieces,
            ordered,
            &added,
            changes,
        )
    }
}

// The figures of the records that were accepted, in words; empty if none was.
fn figures_of(alloc: Global, config: &Config, numbers: &Numbers) -> Result<String, AllocError> {
    if numbers.records() == 0 {
        return Ok(String::new(alloc));
    }
    text_of(alloc, config.cores(), numbers)
}

// Draws a record that was accepted: what it changed, and what it did with messages.
fn draw(
    picture: &mut Picture,
    links: &mut MessageLinks,
    pieces: &[Piece],
    ordered: &Ordered,
    added: &Added<'_>,
    changes: &[Change],
) -> Result<(), AllocError> {
    let Followed {
        is_sent,
        received,
        ended,
    } = links.follow(pieces, ordered)?;
    // The prover looks for the types of these values in this file.
    let received: Option<Received> = received;
    let ended: Option<Sent> = ended;
    let followed = Followed {
        is_sent,
        received,
        ended,
    };
    picture.accept(pieces, added, changes, &followed)?;
    Ok(())
}

// How a record was judged that a stretch keeps.
fn status_of(is_broken: bool, is_last: bool) -> Status {
    if is_broken && is_last {
        Status::Broken
    } else {
        Status::Accepted
    }
}

// Where a record is, and how it was judged.
fn added<'a>(rows: &'a ShownRows<'a>, ordered: &'a Ordered, status: Status) -> Added<'a> {
    Added {
        ordered,
        source: rows.source(ordered.core, ordered.rec.seq),
        status,
    }
}
