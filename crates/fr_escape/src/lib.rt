// How a text is written into each language in which the product writes, so that nothing of a file, of a path or of a
// word of the command line can break out of its place. Each language has one function: its contract says to the letter
// what is appended (`text`), and that nothing of this can end the place that it is in (`harmless`). fr_page writes by
// `push_html`, fr_formats by `push_xml`, `push_uri` and `push_json`; `push_plain` is for a terminal and for the texts of reports. A `Location`
// has lines that are written so. No crate of the product is below.
#![tactic(auto)]

mod as_json;
mod html;
mod language;
mod place;
mod plain;
mod steering;
mod uri;
mod xml;

pub use as_json::push_json;
pub use html::push_html;
pub use place::{Location, place_of_texts};
pub use plain::push_plain;
pub use uri::push_uri;
pub use xml::push_xml;
