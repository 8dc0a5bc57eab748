// The pieces before the first record.

ghost use Rattle.std.specs.Prelude.{◌≡◌, ◌<◌, ℕ, IfOk, length};
ghost use Rattle.apex_machine.specs.Pieces.{pieces};
ghost use Rattle.verdict_merge.specs.Rounds.{AreGoing, cold_parts, parts_in};

use crate::fault::Memory;
use module_config::Config;
use piece_check::{Piece, count};
use std::alloc::Global;

/// All pieces as they are before the first record, in the order of their numbers.
///
/// Memory if memory is refused.
pub fn start_pieces(alloc: Global, config: &Config) -> Result<Vec<Piece>, Memory>
    ensures cold { IfOk result (λ started. (number : ℕ) → number < length (pieces config.now) → parts_in started.items number ≡ cold_parts config.now number) }
    ensures going { IfOk result (λ started. AreGoing config.now 0 started.items) }
{
    let total = count(config);
    let Ok(mut pieces) = Vec::with_capacity(alloc, total) else {
        return Err(Memory);
    };
    'pieces: for number in 0..total {
        match Piece::start(alloc, config, number) {
            Ok(piece) => pieces.push_reserved(piece),
            Err(_) => return Err(Memory),
        }
    }
    Ok(pieces)
}
