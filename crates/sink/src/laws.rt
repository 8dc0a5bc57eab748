// The laws of markup.

ghost use Rattle.sink.specs.Escapes.{EscapedHasNoDelimiter};
ghost use Rattle.sink.specs.Markup.{TagsAreOwn};

/// Escaped text has no character that begins or ends a tag or the value of an attribute.
pub fn escaped_has_no_delimiter()
    ensures { EscapedHasNoDelimiter }
{}

/// In markup, each `<` begins one of the program's own tags, whatever texts were added.
pub fn tags_are_own()
    ensures { TagsAreOwn }
{}
