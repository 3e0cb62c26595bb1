// The arguments of the program read: the command, its numbers, where its texts come from; and the texts of the commands. What they are is defined in the
// crate `commands`.
#![tactic(auto)]

mod arguments;
mod limits;
mod sources;
mod stops;
mod texts;

pub use arguments::{box_of, call_of, fill_places, fitting_command, layer_of, named_command};
pub use sources::{second_source, text_source};
pub use stops::given_stops;
pub use texts::{help_texts, text_number, usage_lines, version_line};
