// What a channel rejects.

use crate::held::tell_channel_held;
use crate::refusal::Refusal;
use piece_check::Seen;
use wording::Words;

/// Reports what the channel holds, if a channel rejects a call.
pub fn tell_channel(words: &mut Words, refusal: &Refusal<'_>) {
    let Seen::Channel { channel, .. } = refusal.piece.seen() else {
        return;
    };
    if let Some(kind) = refusal.config.channel_kind(channel.number()) {
        tell_channel_held(words, channel, refusal.time(), &kind);
    }
}

/// Reports that the caller waits at the channel.
pub fn tell_waits(words: &mut Words) {
    words.next_line();
    words.say("the caller already waits at an end of the channel");
    words.rule("part 11, cause Choice of a channel (has_entry_in)");
}

/// Reports that a service is not of the channel's kind.
pub fn tell_other_kind(words: &mut Words) {
    tell_unsuited(words, "the service is not of the channel's kind");
}

/// Reports that the status is requested from neither end.
pub fn tell_neither_end(words: &mut Words) {
    tell_unsuited(
        words,
        "the caller's partition is at neither end of the channel",
    );
}

fn tell_unsuited(words: &mut Words, why: &str) {
    words.next_line();
    words.say(why);
    words.rule("part 5 (suits)");
}
