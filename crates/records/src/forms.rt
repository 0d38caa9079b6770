// The two forms of a record: with the mark 43h 50h, and with the mark 43h 51h and a point count.
ghost use Rattle.std.specs.Prelude.{◌+◌, ◌≤◌, ◌≡◌, cond, ◌&&◌, ◌||◌, ◌++◌, eqb, length};
ghost use Rattle.pages.specs.Sheets.{longest};
ghost use Rattle.records.specs.Records.{mark_of, header, counting, body_size};
ghost use Rattle.records.specs.Promises.{count_out};

use pages::Layout;

// The mark's second byte.
pub(crate) fn mark_of(counted: bool) -> u8
    ensures { result ≡ mark_of counted }
{
    if counted { 0x51 } else { 0x50 }
}

// Whether two bytes are a mark: "2 admits both".
pub(crate) fn is_mark(first: u8, second: u8) -> bool
    ensures { result ≡ (eqb first 0x43 && (eqb second 0x50 || eqb second 0x51)) }
{
    (first == 0x43) & ((second == 0x50) | (second == 0x51))
}

// Whether a point count is there and doesn't go with the table.
pub(crate) fn is_count_out(layout: Layout, bytes: &[u8]) -> bool
    ensures { result ≡ count_out layout bytes.now }
{
    match bytes.first() {
        Some(points) => !pages::goes_with(layout, *points),
        None => false,
    }
}

// How many bytes stand behind the header.
pub(crate) fn body_size(layout: Layout) -> usize
    requires { layout.settings + layout.speeds ≤ longest }
    ensures { result ≡ body_size layout }
{
    let registers = layout.settings + layout.speeds;
    if layout.counted {
        1 + registers
    } else {
        registers
    }
}

// The mark, then the numbers of the chip and of the table.
pub(crate) fn header(counted: bool, chip: u8, table: u8) -> [u8; 4]
    ensures { result ≡ header counted chip table }
{
    [0x43, mark_of(counted), chip, table]
}

// Writes what stands behind the header: the point count, where there is one, then the body.
pub(crate) fn put_body(counted: bool, points: u8, body: &[u8], out: &mut [u8])
    requires { cond counted 1 0 + length body.now ≡ length out.old }
    ensures { out.new ≡ counting counted points ++ body.now }
{
    if counted {
        out[0] = points;
        out[1..].copy_from_slice(body);
    } else {
        out.copy_from_slice(body);
    }
}
