// Files by name: read whole, made new, and replaced whole or not at all. What a call of the system reads or writes no contract can say.
// Files are reached through `rt`, and what goes wrong is said on `texts`.
#![tactic(auto)]

mod names;

ghost use Rattle.says.specs.Counts.{IsPrefixLen};
ghost use Rattle.std.specs.Prelude.{◌≡◌, IfOk, IfSome};

use std::fs::{self, OpenFile, OpenOptions, Permissions};
use std::io::{ErrorKind, Print, Read, Write};
use std::os::unix::fs::{OpenOptionsExt, PermissionsExt};
use std::random::RandomSource;
use std::rt::Files;
use std::{io, str};

// A path as the library takes it, which is text: bytes that are no UTF-8 name no file.
fn text_of(path: &[u8]) -> io::Result<&str>
    ensures { IfOk result (λ text. text.now ≡ path.now) }
{
    match str::from_utf8(path) {
        Ok(text) => Ok(text),
        Err(_) => Err(io::Error::new(ErrorKind::InvalidInput, "a file's name must be UTF-8")),
    }
}

// One read into what is left of the room: how many bytes, none of them at the file's end. Where it fails, that is said.
fn read_some<F: Read>(
    file: &mut F,
    texts: &impl Print,
    path: &[u8],
    rest: &mut [u8],
) -> Option<usize>
    ensures { IfSome result (λ n. IsPrefixLen n rest.new) }
{
    match file.read(rest) {
        Ok(n) => Some(n),
        Err(why) => {
            says::failed(texts, path, &why);
            None
        }
    }
}

// Reads the open file at path until the room is full or the file ends: how many bytes. Where it cannot be read, that is said.
pub fn fill<F: Read>(
    file: &mut F,
    texts: &impl Print,
    path: &[u8],
    room: &mut [u8],
) -> Option<usize>
    ensures { IfSome result (λ n. IsPrefixLen n room.new) }
{
    let mut at: usize = 0;
    while at < room.len() {
        let n = read_some(file, texts, path, &mut room[at..])?;
        if n == 0 {
            break;
        }
        at += n;
    }
    Some(at)
}

// Opens the file at path for reading.
pub fn open<R: Files>(rt: &R, path: &[u8]) -> io::Result<R::File> {
    fs::open(rt, text_of(path)?)
}

// The file at path, as far as the room goes: how many bytes. Where it cannot be read, that is said.
pub fn read_whole<R: Files>(
    rt: &R,
    texts: &impl Print,
    room: &mut [u8],
    path: &[u8],
) -> Option<usize>
    ensures { IfSome result (λ n. IsPrefixLen n room.new) }
{
    match open(rt, path) {
        Ok(mut file) => fill(&mut file, texts, path, room),
        Err(why) => {
            says::failed(texts, path, &why);
            None
        }
    }
}

// A file is made under a name that no file has, and opened to be written. It is its owner's alone.
fn create<R: Files>(rt: &R, path: &[u8]) -> io::Result<R::File> {
    let mut how = OpenOptions::new();
    how.write(true).create_new(true).mode(0o600);
    how.open(rt, text_of(path)?)
}

// The bytes are written to an open file, flushed to the disk, and the file is closed. That it cannot be closed is not told: its bytes are
// on the disk by then.
fn write_out<F: Write + OpenFile + Drop>(mut file: F, bytes: &[u8]) -> io::Result<()> {
    file.write_all(bytes)?;
    file.sync_all()
}

// The file at path is removed, where that can be done.
fn remove(rt: &impl Files, path: &[u8]) {
    if let Ok(text) = text_of(path) {
        fs::remove_file(rt, text).is_ok();
    }
}

// A file is made of bytes under a name that no file has; it is its owner's alone, as is one that replaces it later. Where that fails, it
// is said and no file is left.
pub fn make(rt: &impl Files, texts: &impl Print, path: &[u8], bytes: &[u8]) -> bool {
    match create(rt, path) {
        Ok(file) => {
            // its owner may read and write it, whatever the system takes away from a new file's rights
            file.set_permissions(Permissions::from_mode(0o600)).is_ok();
            match write_out(file, bytes) {
                Ok(()) => true,
                Err(why) => {
                    says::failed(texts, path, &why);
                    remove(rt, path);
                    false
                }
            }
        }
        Err(why) => {
            says::failed(texts, path, &why);
            false
        }
    }
}

// A new file under a name whose last six bytes are drawn.
fn create_drawn<R: Files + RandomSource>(rt: &R, name: &mut [u8]) -> io::Result<R::File> {
    let mut draw = [0u8; 6];
    rt.fill_bytes(&mut draw)?;
    names::put_letters(name, draw);
    create(rt, name)
}

// How many names are drawn before the last is told to be taken: as many as there are of three letters.
const MOST_DRAWN: u32 = 238_328;

// A new file under a name that no file has, of those that differ in the last six bytes.
fn create_beside<R: Files + RandomSource>(rt: &R, name: &mut [u8]) -> io::Result<R::File> {
    for _ in 1..MOST_DRAWN {
        match create_drawn(rt, name) {
            Err(why) if why.kind() == ErrorKind::AlreadyExists => {}
            answer => return answer,
        }
    }
    create_drawn(rt, name)
}

// The file at path takes the place of the one at another.
fn rename(rt: &impl Files, from: &[u8], to: &[u8]) -> io::Result<()> {
    fs::rename(rt, text_of(from)?, text_of(to)?)
}

// The bytes are written to a new file at name, which then takes the place of the one at path. Where that fails, it is said and the new
// file is removed.
fn put_in_place<F: Write + OpenFile + Drop>(
    rt: &impl Files,
    texts: &impl Print,
    file: F,
    name: &[u8],
    path: &[u8],
    bytes: &[u8],
) -> bool {
    if let Err(why) = write_out(file, bytes) {
        says::failed(texts, name, &why);
        remove(rt, name);
        return false;
    }
    if let Err(why) = rename(rt, name, path) {
        says::failed(texts, path, &why);
        remove(rt, name);
        return false;
    }
    true
}

// The file at path is replaced by a new one of these bytes beside it, whose name is made from the one given.
fn replace_by<R: Files + RandomSource>(
    rt: &R,
    texts: &impl Print,
    name: &mut [u8],
    path: &[u8],
    bytes: &[u8],
) -> bool {
    match create_beside(rt, name) {
        Ok(file) => put_in_place(rt, texts, file, name, path, bytes),
        Err(why) => {
            names::put_marks(name);
            says::failed(texts, name, &why);
            false
        }
    }
}

// The file at path is replaced by one of these bytes, whole or not at all: they are written to a new file beside it, which then takes its
// name. Where that fails, it is said and the new file is removed. A killed call leaves a new file behind that no later call meets, since
// each has a name of its own.
pub fn replace<R: Files + RandomSource>(
    rt: &R,
    texts: &impl Print,
    path: &[u8],
    bytes: &[u8],
) -> bool {
    let mut name = octets::room::<4096>();
    let n = names::name_beside(&mut name, path);
    replace_by(rt, texts, &mut name[..n], path, bytes)
}

// Whether a name, as text, is that of a link.
fn is_link_at(rt: &impl Files, text: &str) -> bool {
    match fs::symlink_metadata(rt, text) {
        Ok(found) => found.is_symlink(),
        Err(_) => false,
    }
}

// Whether the name is that of a link, as far as the system takes one. A link would be replaced itself, and the file that it leads to stay
// as it was.
pub fn is_link(rt: &impl Files, path: &[u8]) -> bool {
    let name = names::ended(path);
    match text_of(&name[..path.len().min(4095)]) {
        Ok(text) => is_link_at(rt, text),
        Err(_) => false,
    }
}
