// Sources: a C-shaped notation that is translated into an application (docs/SOURCE.md). `translated` reads the tokens of
// a source (token), its declarations and statements (declare, template, statement, simple, call, expression, condition,
// switch), and keeps each body as lines and labels (program, lines). Then it writes out the body of each actor (expand),
// takes out jumps that aren't needed (tidy), where others are seen to see no less (visible), and writes the application (text).
#![tactic(auto)]

mod call;
mod condition;
mod cursor;
mod declare;
mod expand;
mod expression;
mod fault;
mod kernel;
mod lines;
mod message;
mod near;
mod open;
mod program;
mod reader;
mod renamed;
mod scope;
mod seeming;
mod simple;
mod source;
mod statement;
mod switch;
mod template;
mod text;
mod texts;
mod tidy;
mod token;
mod translation;
mod visible;

pub use message::{Message, Refused};
pub use seeming::seems_a_source;
pub use translation::{MOST_APPLICATION_BYTES, MOST_SOURCE_BYTES, Translation, translated};
