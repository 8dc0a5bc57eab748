// What the front of a text is: a plain line, which has no quote and no carriage return, or something that is left to `csv`.

ghost use Rattle.std.specs.Prelude.{take};
ghost use Rattle.csv_rows.specs.Front.{HasFields, IsFront};
ghost use Rattle.csv_rows.specs.Line.{split};
ghost use Rattle.csv_rows.specs.Pieces.{StopsAt};

/// A plain line that ends: how many bytes it has, and how many it takes including its end.
#[derive(Clone, Copy)]
pub struct Line {
    pub length: usize,
    pub taken: usize,
}

/// What the front of a text is.
#[derive(Clone, Copy)]
pub enum Front {
    /// A plain line, which ends with a line feed, or with a carriage return and a line feed.
    Line(Line),
    /// Plain bytes up to the end of what is known of the text.
    Open,
    /// The same, and then a carriage return.
    Return,
    /// A line with a quote or with a carriage return that ends no line, or a very long line.
    Other,
}

/// What the front of a text is, which is plain up to this place.
pub fn front_at(text: &[u8], stop: usize) -> Front
    requires { StopsAt text.now stop }
    ensures front { IsFront text.now result }
    ensures fields { HasFields text.now result (split (take stop text.now)) }
{
    match &text[stop..] {
        [] => Front::Open,
        [b'\n', ..] => Front::Line(Line {
            length: stop,
            taken: stop + 1,
        }),
        [b'\r', b'\n', ..] => Front::Line(Line {
            length: stop,
            taken: stop + 2,
        }),
        [b'\r'] => Front::Return,
        _ => Front::Other,
    }
}
