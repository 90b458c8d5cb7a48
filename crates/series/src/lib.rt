// The VEVENTs of a calendar beside each other: masters and overrides by UID, and which rules they break so.
// Everything is asked by index, rows and links.
// Calendar, links, columns and context stay arguments of their own, and what ties them (RowTied, Tied, Linked, Takeable, Printed) stays in clauses:
// docs/TRACE.md names `masters::master_of`, `beside::is_misplaced`, `moved::store_moved`, `columns::fill_removed` and `passes::rule_fault`, which take them so.
#![tactic(auto)]

pub mod beside;
pub mod columns;
pub mod masters;
pub mod moved;
pub mod passes;
pub mod prints;
pub mod removed;
pub mod uids;
