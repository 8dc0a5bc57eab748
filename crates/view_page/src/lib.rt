//! A picture as it is written: as SVG by itself, or in a page of HTML.
//!
//! Promises: the strips of a picture have each of its records once, in their order. What a sink receives of a picture or a page is markup:
//! the program's own, whose tags have a few names, and texts that are escaped, whatever the files and the command line say. If the writing
//! fails, the sink has the first bytes of such markup. If memory is refused, a function returns an error; it never shortens or omits a text
//! instead. Nothing here judges.
#![tactic(auto)]

mod classes;
mod edges;
mod fault;
mod frames;
mod groups;
mod html;
mod key;
mod labels;
mod layout;
mod names;
mod rows;
mod scale;
mod shapes;
mod shares;
mod strip;
mod strip_bars;
mod strip_marks;
mod style;
mod table;
mod target;
mod times;
mod wrapped;
mod written;

pub use fault::PageFault;
pub use html::PageTexts;
pub use layout::{Strip, strips_of};
pub use scale::Scale;
pub use written::{write_html, write_svg};
