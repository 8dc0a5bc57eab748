// The page around a picture.

use crate::layout::Layout;
use crate::scale::Ticks;
use crate::style::{DEFINITIONS, PAGE_STYLE, STYLE};
use sink::Markup;
use view_picture::{Column, Picture};

/// What a page says in addition to its picture.
#[derive(Clone, Copy)]
pub struct PageTexts<'a> {
    /// What the picture shows, in one sentence.
    pub heading: &'a str,
    /// The line of the answer.
    pub line: &'a str,
    /// Why the answer is not Yes; empty if it is.
    pub explanation: &'a str,
    /// The files, in words.
    pub files: &'a str,
    /// The figures of the records that were accepted; empty if none was.
    pub figures: &'a str,
}

/// Begins a page, up to its picture.
pub fn page_head(out: &mut Markup, picture: &Picture, texts: &PageTexts<'_>) {
    out.mark(
        "<html lang=\"en\">\n<head>\n<meta charset=\"utf-8\"/>\n<meta name=\"viewport\" content=\"width=device-width\"/>\n<title>",
    );
    out.say(texts.line);
    out.mark("</title>\n<style>");
    out.mark(STYLE);
    out.mark(PAGE_STYLE);
    out.mark("</style>\n</head>\n<body class=\"page");
    if texts.explanation.is_empty() {
        out.mark(" lawful-run");
    }
    out.mark("\">\n");
    tell_answer(out, picture, texts);
    out.mark("<svg class=\"hidden\" aria-hidden=\"true\">");
    out.mark(DEFINITIONS);
    out.mark("</svg>\n");
}

/// What the picture shows, and the file and the line of the record that is rejected or breaks a rule.
pub fn tell_heading(out: &mut Markup, picture: &Picture, texts: &PageTexts<'_>) {
    out.say(texts.heading);
    if let Some(column) = fault_of(picture) {
        out.mark(": ");
        out.say(column.location.as_str());
    }
}

// The record that is rejected or breaks a rule.
fn fault_of(picture: &Picture) -> Option<&Column> {
    picture
        .columns()
        .iter()
        .find(|column| column.status.is_fault())
}

// What the picture shows, its files, and the answer with what explains it.
fn tell_answer(out: &mut Markup, picture: &Picture, texts: &PageTexts<'_>) {
    out.mark("<h1>");
    out.say(texts.heading);
    if let Some(column) = fault_of(picture) {
        out.mark(": <a href=\"#fault\">");
        out.say(column.location.as_str());
        out.mark("</a>");
    }
    out.mark("</h1>\n<p>");
    out.say(texts.files);
    out.mark("</p>\n<pre>");
    out.say(texts.line);
    if !texts.explanation.is_empty() {
        out.mark("\n");
        tell_lines(out, texts.explanation);
    }
    out.mark("</pre>\n");
}

/// What a line of an explanation begins with that says more of the line before it.
const BELOW_LINES: &str = "      ";

// Lines, each of which hangs by its own indentation.
fn tell_lines(out: &mut Markup, text: &str) {
    for line in text.split_inclusive('\n') {
        if line.starts_with(BELOW_LINES) {
            out.mark("<code class=\"hanging below\">");
        } else {
            out.mark("<code class=\"hanging\">");
        }
        tell_words(out, line);
        out.mark("</code>");
    }
}

/// How many bytes a word has at most that may be an option.
const LONGEST_OPTION: usize = 20;

// The words of a line, of which an option is not broken at its dashes, and not before its value if it asks for a rule.
fn tell_words(out: &mut Markup, line: &str) {
    let mut is_open = false;
    for (number, word) in line.split(' ').enumerate() {
        if number > 0 {
            out.mark(" ");
        }
        if is_open {
            tell_value(out, word);
            is_open = false;
        } else if word.starts_with("--") && word.len() <= LONGEST_OPTION {
            out.mark("<code class=\"option\">");
            out.say(word);
            is_open = asks_for_rule(word);
            if !is_open {
                out.mark("</code>");
            }
        } else {
            out.say(word);
        }
    }
    if is_open {
        out.mark("</code>");
    }
}

// Whether a word is an option that asks for a rule.
fn asks_for_rule(word: &str) -> bool {
    word == "--forbid" || word == "--max-elapsed"
}

/// How many bytes the value of such an option has at most: no name of a service is longer.
const LONGEST_VALUE: usize = 40;

// The value of an option, and the end of their line, which is before a word that is too long to be a value.
fn tell_value(out: &mut Markup, word: &str) {
    if word.len() <= LONGEST_VALUE {
        out.say(word);
        out.mark("</code>");
    } else {
        out.mark("</code>");
        out.say(word);
    }
}

/// Begins a part of the picture with its heading.
pub fn strip_heading(out: &mut Markup, picture: &Picture, layout: &Layout) {
    out.mark("<h3>");
    tell_extent(out, picture, layout);
    out.mark("</h3>\n");
}

/// The places of a strip, after its times if its width counts ticks.
pub fn tell_extent(out: &mut Markup, picture: &Picture, layout: &Layout) {
    let is_by_ticks = match layout.edges.ticks() {
        Some(ticks) if ticks.len() > 0 => {
            tell_times(out, ticks);
            true
        }
        _ => false,
    };
    let first = picture.columns().get(layout.strip.from);
    let last = picture.columns().get(layout.strip.to.saturating_sub(1));
    if let (Some(first), Some(last)) = (first, last) {
        out.say(if is_by_ticks { "; places " } else { "Places " });
        out.say(format_args!("{} to {}", first.place.number(), last.place.number()));
    }
}

/// How many records a picture has at most whose size a page does not let a reader choose.
const FEW_RECORDS: usize = 60;

/// Adds the sizes that a reader can choose for the pictures, of which one at a time is open, if there are many records.
pub fn tell_sizes(out: &mut Markup, picture: &Picture) {
    if picture.len() <= FEW_RECORDS {
        return;
    }
    out.mark(SIZES);
}

const SIZES: &str = "<p class=\"size\">Size of the pictures:</p>
<details class=\"size half\" name=\"size\"><summary>50 %</summary></details>
<details class=\"size whole\" name=\"size\" open=\"open\"><summary>100 %</summary></details>
<details class=\"size more\" name=\"size\"><summary>150 %</summary></details>
<details class=\"size twice\" name=\"size\"><summary>200 %</summary></details>
";

/// Begins a major frame with its heading.
pub fn frame_heading(out: &mut Markup, picture: &Picture, layout: &Layout) {
    let Some(ticks) = layout.edges.ticks() else {
        return;
    };
    let frame = picture.frame().max(1);
    out.mark("<h2>");
    if ticks.len() == frame {
        out.say(format_args!("Major frame {} by time", ticks.from / frame));
    } else {
        out.say(format_args!("A part of major frame {} by time", ticks.from / frame));
    }
    out.mark("</h2>\n<h3>");
    tell_times(out, ticks);
    out.say(format_args!("; a major frame has {frame} ticks"));
    out.mark("</h3>\n");
}

// The times of a strip or a part of a major frame.
fn tell_times(out: &mut Markup, ticks: Ticks) {
    let last = ticks.to.saturating_sub(1);
    if ticks.from == last {
        out.say(format_args!("Time {last} of the cores"));
    } else {
        out.say(format_args!("Times {} to {last} of the cores", ticks.from));
    }
}

/// Begins the records of a lawful page with their heading, if there are any.
pub fn records_heading(out: &mut Markup, picture: &Picture) {
    if picture.len() == 0 {
        return;
    }
    out.mark("<h2>The records</h2>\n");
}

/// Adds the figures of the records that were accepted, if there are any. Where the recording is lawful they are unfolded.
pub fn tell_figures(out: &mut Markup, texts: &PageTexts<'_>) {
    if texts.figures.is_empty() {
        return;
    }
    out.mark("<h2>In numbers</h2>\n<details class=\"figures\"");
    if texts.explanation.is_empty() {
        out.mark(" open=\"open\"");
    }
    out.mark(
        "><summary>The accepted records on this page; <code class=\"option\">apexview --format summary</code> counts the whole recording</summary>\n<pre>",
    );
    tell_lines(out, texts.figures);
    out.mark("</pre>\n</details>\n");
}

/// Ends a page.
pub fn page_foot(out: &mut Markup) {
    out.mark("</body>\n");
}
