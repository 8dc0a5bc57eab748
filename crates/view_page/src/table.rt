// The table of the records of a picture.

use crate::classes::tag_of_row;
use crate::layout::Strip;
use sink::Markup;
use view_picture::{Column, Picture, Status};

/// Begins the table, if there are records.
pub fn table_head(out: &mut Markup, picture: &Picture) {
    if picture.len() == 0 {
        return;
    }
    out.mark(
        "<h2>The same as a table</h2>\n<table>\n<caption>The records in their order, and what each changed</caption>\n<thead><tr><th scope=\"col\">Place</th><th scope=\"col\">Core</th><th scope=\"col\">Time</th><th scope=\"col\">Record</th><th scope=\"col\">What it changed</th><th scope=\"col\">File, line and row</th></tr></thead>\n<tbody>\n",
    );
}

/// Adds the rows of these records.
pub fn tell_rows(out: &mut Markup, picture: &Picture, strip: Strip) {
    for index in strip.from..strip.to {
        if let Some(column) = picture.columns().get(index) {
            tell_row(out, column);
        }
    }
}

/// Ends the table, if there are records.
pub fn table_foot(out: &mut Markup, picture: &Picture) {
    if picture.len() == 0 {
        return;
    }
    out.mark("</tbody>\n</table>\n");
}

// That a record breaks a rule, and what it changed.
fn tell_broken(out: &mut Markup, column: &Column) {
    out.mark("breaks a rule");
    if column.changes.is_empty() {
        return;
    }
    out.mark("; ");
    out.say(column.changes.as_str());
}

fn tell_row(out: &mut Markup, column: &Column) {
    out.mark(tag_of_row(column.status));
    out.mark("<td>");
    out.say(column.place.number());
    out.mark("</td><td>");
    out.say(column.core.number());
    out.mark("</td><td>");
    if let Some(time) = column.time {
        out.say(time);
    }
    out.mark("</td><td>");
    out.say(column.words.as_str());
    out.mark("</td><td>");
    match column.status {
        Status::Accepted => out.say(column.changes.as_str()),
        Status::Broken => tell_broken(out, column),
        Status::Rejected => out.mark("rejected"),
        Status::After => out.mark("not judged"),
        Status::Beyond => out.mark("not shown"),
    }
    out.mark("</td><td>");
    tell_source(out, column);
    out.mark("</td></tr>\n");
}

/// How many bytes a field of a row has at most that is in one line.
const LONGEST_FIELD: usize = 40;

// Where a record is, with its row, which is broken between its fields alone if they are not long.
fn tell_source(out: &mut Markup, column: &Column) {
    let (source, location) = (column.source.as_str(), column.location.as_str());
    let row = match source.strip_prefix(location) {
        Some(rest) => rest.strip_prefix(": "),
        None => None,
    };
    let Some(row) = row else {
        out.say(source);
        return;
    };
    out.say(location);
    out.mark(": ");
    for field in row.split_inclusive(',') {
        tell_field(out, field);
    }
}

// A field with the comma after it.
fn tell_field(out: &mut Markup, field: &str) {
    if field.len() <= 1 || field.len() > LONGEST_FIELD {
        out.say(field);
    } else {
        out.mark("<code class=\"field\">");
        out.say(field);
        out.mark("</code>");
    }
}
