// Given entries, written.
ghost use Rattle.std.specs.Prelude.{◌++◌, ◌≡◌, ◌*◌, ◌≤◌, length, drop};
ghost use Rattle.layout.specs.Layout.{entries_bytes};

use layout::Entry;

// Writes them to the front of the buffer.
pub(crate) fn put_entries(buf: &mut [u8], es: &[Entry])
    requires { 6 * length es.now ≤ length buf.old }
    ensures { buf.new ≡ entries_bytes es.now ++ drop (6 * length es.now) buf.old }
{
    for (i, &e) in es.iter().enumerate() {
        crate::put_entry(buf, 6 * i, e);
    }
}
