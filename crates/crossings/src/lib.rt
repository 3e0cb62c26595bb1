// Crossings: the class of a row whose last two rectangles are segments (02: pipes against ducts), and the checks 15 and 16. They are defined in specs/; the
// code is in the crate `crossings_code`.
#![tactic(auto)]
