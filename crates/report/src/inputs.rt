// What a check is given.

ghost use Rattle.std.specs.Prelude.{◌≡◌, map};
ghost use Rattle.report.specs.Answers.{given_by};

use csv_rows::TextSource;
use std::marker::Model;

/// What a check is given: the text of the configuration, a reader of each core's recording in the order of the cores, and a reader of
/// the certificate. A contract sees the bytes that the readers give, if they are known.
#[derive(Drop)]
pub struct Inputs<'a, R: TextSource, C: TextSource> {
    pub(crate) config: &'a [u8],
    pub(crate) recordings: Vec<R>,
    pub(crate) order: C,
}

impl<'a, R: TextSource, C: TextSource> Model for Inputs<'a, R, C> {
    ghost use Rattle.std.specs.Prelude.{map};
    ghost use Rattle.report.specs.Answers.{Given, given_by};

    ghost Value = { Given };

    ghost view = { λ inputs. given_by inputs.config.now (map R.remaining inputs.recordings.items) R.can_fail (C.remaining inputs.order) C.can_fail };
}

impl<'a, R: TextSource, C: TextSource> Inputs<'a, R, C> {
    /// These inputs. Takes no memory.
    pub fn new(config: &'a [u8], recordings: Vec<R>, order: C) -> Inputs<'a, R, C>
        ensures { result ≡ given_by config.now (map R.remaining recordings.items) R.can_fail (C.remaining order) C.can_fail }
    {
        Inputs {
            config,
            recordings,
            order,
        }
    }
}
