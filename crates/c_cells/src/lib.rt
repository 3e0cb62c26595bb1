// Tickets, strips and the answers of calls as numbers and cells of fixed length, for languages without enums. The layout is in specs/Cells.antt; the code is
// in the crate `c_codec`.
#![tactic(auto)]
