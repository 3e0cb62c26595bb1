// The lines of a plan text: PLAN and a number, LAYER and two numbers, or RECT and four numbers, parted by tabs. How they are spelled and read is defined in
// specs/; `lexer` reads lines, `speller` writes them.
#![tactic(auto)]

use geometry::Rect;

// A line of the text: PLAN and k, LAYER with a size and a margin, or RECT and a rectangle.
#[derive(Clone, Copy)]
pub enum Line {
    Plan(i32),
    Layer(i32, i32),
    Rectangle(Rect),
}
