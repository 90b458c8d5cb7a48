// The row of a component: four numbers in lent memory, in the order of the BEGIN lines.
// The BEGIN line's number, the END line's number, the row of the next component that does not stand in it, and what it is.
ghost use Rattle.std.specs.Prelude.{◌≡◌, ◌+◌, ◌*◌, ◌≤◌, ◌<◌, length};
ghost use Rattle.structure.specs.Rows.{kind_of, RowPut};

// Row k becomes these numbers.
// No generic one with those of `events` and `identities`: each is one `copy_from_slice` with a definition of its own, and one over type and width would be no shorter.
pub fn put_row(rows: &mut [u32], k: usize, row: [u32; 4])
    requires { 4 * k + 4 ≤ length rows.old }
    ensures { RowPut rows.old (4 * k) row rows.new }
{
    rows[4 * k..4 * k + 4].copy_from_slice(&row);
}

// What the component of a name is: 1 an event, 2 a block, 0 anything else.
// A number and no enum: it stands in a row of numbers in lent memory (no heap), and definition `kind_of` says it.
pub fn kind_of(name: &[u8]) -> u32
    ensures { result ≡ kind_of name.now }
{
    if ascii::same_name(name, b"VEVENT") {
        return 1;
    }
    if ascii::same_name(name, b"VFREEBUSY") {
        return 2;
    }
    0
}
