// Saving a file: the text goes to a new file beside the old one, which takes the old one's name once all is written.
#![tactic(auto)]

ghost use Rattle.std.specs.Prelude.{◌≤◌, length};

use pages::Page;
use std::fs::{OpenFile, OpenOptions};
use std::io::{ErrorKind, Write};
use std::rt::Files;
use std::{fs, io, str};

// The longest name of a new file, in bytes.
const NAME: usize = 4096;

// A path as the file system takes it: it is UTF-8.
fn named(path: &[u8]) -> io::Result<&str> {
    str::from_utf8(path).or(Err(ErrorKind::InvalidInput.into()))
}

// How many bytes of a path name its folder: those up to its last slash.
fn folder_end(path: &[u8]) -> usize
    ensures { result ≤ length path.now }
{
    path.iter()
        .rposition(|b| *b == b'/')
        .map_or(0, |slash| slash + 1)
}

// Makes a file, where the name is free.
fn create<R: Files>(rt: &R, name: &[u8]) -> io::Result<R::File> {
    OpenOptions::new()
        .write(true)
        .create_new(true)
        .open(rt, named(name)?)
}

// Makes a file in a folder, whose name ends in the first letter that is free. The name stands on the page.
fn make_new<R: Files>(rt: &R, folder: &[u8], name: &mut Page<NAME>) -> io::Result<R::File>
    requires { length folder.now ≤ 4086 }
{
    for letter in b'a'..=b'z' {
        name.start(folder);
        name.put(b".saving-");
        name.put(&[letter]);
        let made = create(rt, name.text());
        if made.is_ok() {
            return made;
        }
    }
    Err(ErrorKind::AlreadyExists.into())
}

// Writes a text to a file, all of it and for good. The file is then closed.
fn write_whole(mut file: impl OpenFile + Write + Drop, text: &[u8]) -> io::Result<()> {
    file.write_all(text)?;
    file.sync_all()
}

// Writes a text to a new file of this name, which then takes the name of the path.
fn put_in_place<R: Files>(
    rt: &R,
    file: R::File,
    name: &str,
    path: &str,
    text: &[u8],
) -> io::Result<()> {
    write_whole(file, text)?;
    fs::rename(rt, name, path)
}

// Saves a text as the file of this path; where that fails, an old file stays as it was, and the new one is gone. A path that is
// not UTF-8 names no file.
pub fn save_file(rt: &impl Files, path: &[u8], text: &[u8]) -> io::Result<()> {
    let target = named(path)?;
    let folder = &path[..folder_end(path)];
    if 4086 < folder.len() {
        return Err(ErrorKind::InvalidFilename.into());
    }
    let mut page = Page::new();
    let file = make_new(rt, folder, &mut page)?;
    let name = named(page.text())?;
    let saved = put_in_place(rt, file, name, target, text);
    if saved.is_err() {
        let _ = fs::remove_file(rt, name);
    }
    saved
}
