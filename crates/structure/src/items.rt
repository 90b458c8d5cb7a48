// The item at a line of a component. No byte is looked at to find it: the rows say where a component begins, and every other line is a property.

// Done is a case, not None: docs/TRACE.md names `Calendar::item_at`, which answers it as definition `item_by` says.
#[derive(Clone, Copy)]
pub enum Item {
    // The line is a property.
    Property,
    // A component begins here: the line behind it, and the row of the next component beside it.
    Inner(usize, usize),
    // No item is left.
    Done,
}
