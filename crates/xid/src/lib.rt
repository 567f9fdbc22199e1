// XID_Start and XID_Continue of Unicode 16.0.0 (CR 5): "as sorted ranges in one constant table".
//
// `table` holds the numbers, written by oracle/table, and hands them out; `search` finds a code point's row by halves; `usual` tells most letters without
// the table. Read specs/Xid first: membership is lying in one of the rows. That the whole table is in order is computed once (proofs/TableLaws,
// `table_in_order`), and every other proof goes by that.
//
// The table is built on the stack wherever `table()` is called. So a reader calls it once for a name, at the first character that `usual` does not tell, and
// lends it to what looks characters up.
#![tactic(auto)]

pub mod search;
pub mod table;
pub mod usual;
