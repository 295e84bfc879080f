//! The texts of the assembler: the image, the listing, and the line of a refusal, which shows the error in its statement.
#![tactic(auto)]

mod columns;
mod image;
mod line_end;
mod listed;
mod other_statement;
mod refused;
mod refused_statement;
mod shown;
mod standing;
mod statements;
mod two_parts;

pub use image::image_text;
pub use listed::listing;
pub use refused::{refusal, short_refusal_line};
pub use refused_statement::{OtherStatement, RefusedLine, refused_line};
pub use standing::{StandingLine, standing_line};
pub use statements::statement_at;
