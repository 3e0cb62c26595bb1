// A round's tickets and pages as cells, for languages without structs: sixteen tickets of twelve cells, and sixteen pages of five. The layout is in
// specs/RoundCells.antt, that of one ticket and of one page in the crate `cells`; the code is in the crate `c_rounds_codec`.
#![tactic(auto)]
