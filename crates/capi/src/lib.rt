// The library as C sees it: include/sjurnabel.h declares what is exported here, and says in a C
// programmer's words what each function does. Each one is a proved operation under a name for C, over the
// port's own records, which are laid out as C lays them out: its contract is the operation's own. What C
// cannot take as it is has a record of its own: a distance that may be unbounded (`line`), and a text by
// value and a refusal number alone (the crate `c_records`). An interval of the line and one of the circle
// are one type in C.
//
// Every function answers a record by value whose first member is the refusal number; nothing has to be
// granted before a call but what a reference means: a pointer to that many numbers or bytes, which nobody
// else changes meanwhile.
//
// Caller's memory is written in `lent` alone: the common region's output and the scan worker's box, and
// neither on a refusal. A text that is written comes by value, as every answer does.
#![tactic(auto)]

mod circle;
mod geojson;
mod lent;
mod line;
mod rect;
