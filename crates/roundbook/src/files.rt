// The book's file, replaced whole. What is to stand in it is written into a file beside it, of its
// name and `.new`, which is made before the book is read: while it is there, nobody else adds.
ghost use Rattle.std.specs.Prelude.{◌≤◌, length};

use crate::arguments;
use std::fs::{OpenFile, OpenOptions};
use std::io::Write;
use std::rt::{Env, Files};
use std::str::from_utf8;
use std::{fs, io};

// The name of that file: argument 3, and `.new` behind it; no bytes where it has no room.
fn new_name<'a>(rt: &impl Env, buf: &'a mut [u8]) -> &'a [u8]
    ensures { length result.now ≤ length buf.old }
{
    let len = arguments::argument(rt, 3, buf).len();
    let Some(end) = buf.get_mut(len..len + 4) else {
        return &[];
    };
    end.copy_from_slice(b".new");
    &buf[..len + 4]
}

// Makes it, and answers it; none where that failed, and then a line says why.
pub(crate) fn hold<R: Env + Files + Eprint + Alloc>(rt: &R) -> Option<R::File> {
    let mut buf = [0u8; 4096];
    let name = word::name_of(rt, new_name(rt, &mut buf))?;
    match OpenOptions::new()
        .write(true)
        .create_new(true)
        .open(rt, name)
    {
        Ok(file) => Some(file),
        Err(e) => word::fail(rt, name, e),
    }
}

// Takes it away again: the book stays as it is.
pub(crate) fn let_go(rt: &(impl Env + Files)) {
    let mut buf = [0u8; 4096];
    if let Ok(name) = from_utf8(new_name(rt, &mut buf)) {
        let _ = fs::remove_file(rt, name);
    }
}

// Writes the book there, and puts it in the book's place. Where that fails, a line says so.
pub(crate) fn replace<R: Env + Files + Eprint + Alloc>(
    rt: &R,
    mut file: R::File,
    book: &[u8],
) -> Option<()> {
    if let Err(e) = file.write_all(book) {
        return word::fail(
            rt,
            "The book stays as it was, for the new one cannot be written",
            e,
        );
    }
    if let Err(e) = file.sync_all() {
        return word::fail(
            rt,
            "The book stays as it was, for the new one cannot be kept",
            e,
        );
    }
    if let Err(e) = renamed(rt) {
        return word::fail(
            rt,
            "The book stays as it was, for the new one cannot be put in its place",
            e,
        );
    }
    Some(())
}

fn renamed(rt: &(impl Env + Files)) -> io::Result<()> {
    let mut new = [0u8; 4096];
    let mut old = [0u8; 4096];
    match (
        from_utf8(new_name(rt, &mut new)),
        from_utf8(arguments::argument(rt, 3, &mut old)),
    ) {
        (Ok(new), Ok(old)) => fs::rename(rt, new, old),
        _ => Err(io::Error::from(io::ErrorKind::InvalidFilename)),
    }
}
