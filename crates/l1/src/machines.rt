// Machine files: made new, read onto a drum, and replaced. Load and run on them.
ghost use Rattle.std.specs.Prelude.{◌≡◌, true, List, ℕ};
ghost use Rattle.file.specs.Files.{file_of};
ghost use Rattle.file.specs.Reads.{FileRead};
ghost use Rattle.says.specs.Told.{may_close};
ghost use Rattle.l1.specs.New.{new_file};

use crate::call_words::{name_at, word_count};
use crate::sessions::{Gone, empty_drum, load_as, run_as};
use crate::telling::{tell, tell_bar, tell_refused};
use calls::Options;
use disk::read_whole;
use octets::room;
use rules::{Bar, State};
use std::env::Env;
use std::io::Print;
use std::random::RandomSource;
use std::rt::Files;

// The machine file at path, onto a drum and marks, and its state: what stands in some bytes, whatever the system read. Where it could be
// read and is none, that is told. It is read into room for one byte more, by which a longer file is noticed.
pub fn hold(
    rt: &(impl Files + Print),
    texts: &impl Print,
    drum: &mut [u64],
    marks: &mut [u8],
    path: &[u8],
) -> Option<State>
    ensures { (bytes : List ℕ) × FileRead drum.old marks.old bytes result drum.new marks.new }
{
    let mut room = room::<9073>();
    let n = read_whole(rt, texts, &mut room, path)?;
    let found = file::read_file(drum, marks, &room[..n]);
    if found.is_none() {
        tell_bar(rt, texts, Bar::BadDrum);
    }
    found
}

// The file at path is replaced by bytes that are the machine file of these cells, marks and state.
fn replace_file(
    rt: &(impl Files + RandomSource),
    texts: &impl Print,
    path: &[u8],
    bytes: &[u8],
    drum: &[u64],
    marks: &[u8],
    state: State,
) -> bool
    requires { bytes.now ≡ file_of drum.now marks.now state }
{
    disk::replace(rt, texts, path, bytes)
}

// The machine file at path becomes one of these cells, marks and state, or stays as it was, and that is said.
fn keep(
    rt: &(impl Files + RandomSource),
    texts: &impl Print,
    path: &[u8],
    drum: &[u64],
    marks: &[u8],
    state: State,
) -> bool {
    let mut bytes = room::<9072>();
    if file::write_file(&mut bytes, drum, marks, state) {
        if replace_file(rt, texts, path, &bytes, drum, marks, state) {
            return true;
        }
    }
    says::kept(texts, path);
    false
}

// A load on the machine file at path.
fn load_on(
    rt: &(impl Files + Print + RandomSource),
    texts: &impl Print,
    path: &[u8],
    deck: &[u8],
    options: Options,
) {
    let mut drum = empty_drum();
    let mut marks = room::<1000>();
    let Some(before) = hold(rt, texts, &mut drum, &mut marks, path) else {
        return;
    };
    let x = load_as(&mut drum, &mut marks, deck, before, options);
    match x.loading {
        Ok(()) => {
            keep(rt, texts, path, &drum, &marks, x.state);
        }
        Err(bar) => tell_refused(rt, texts, bar, deck),
    }
}

// A run on the machine file at path. The cards are sent as the run goes on; the file is replaced before the Z card is sent, so that a Z
// card says what the file holds.
fn run_on(
    rt: &(impl Files + Print + RandomSource),
    texts: &impl Print,
    path: &[u8],
    deck: &[u8],
    options: Options,
) {
    let mut drum = empty_drum();
    let mut marks = room::<1000>();
    let Some(before) = hold(rt, texts, &mut drum, &mut marks, path) else {
        return;
    };
    let mut out = room::<65536>();
    let Some(g) = run_as(
        rt, texts, &mut drum, &mut marks, &mut out, deck, before, options,
    ) else {
        says::kept(texts, path);
        return;
    };
    finish(rt, texts, path, &drum, &marks, deck, g);
}

// After a run on a machine file: it is replaced, and the Z card is sent; or the run was refused at its entry, and its line is sent.
fn finish(
    rt: &(impl Files + Print + RandomSource),
    texts: &impl Print,
    path: &[u8],
    drum: &[u64],
    marks: &[u8],
    deck: &[u8],
    g: Gone,
)
    requires { may_close g.ending g.state g.count ≡ true }
{
    match g.ending {
        Ok(_) => {
            if keep(rt, texts, path, drum, marks, g.state) {
                if !tell(rt, texts, g.ending, g.state, g.count) {
                    says::replaced(texts, path);
                }
            }
        }
        Err(bar) => tell_refused(rt, texts, bar, deck),
    }
}

// Some work with the deck that the word behind the machine file's name names, where that can be read. A machine file that is a link is not
// taken.
fn with_deck<F: FnOnce(&[u8]) + Drop>(
    rt: &(impl Files + Env),
    texts: &impl Print,
    path: &[u8],
    work: F,
)
    requires { F.IsAlwaysCallable work }
{
    if disk::is_link(rt, path) {
        says::link(texts, path);
        return;
    }
    let mut name = room::<4096>();
    let Some(n) = name_at(rt, texts, &mut name, 3) else {
        return;
    };
    let mut deck = room::<65537>();
    if let Some(size) = read_whole(rt, texts, &mut deck, &name[..n]) {
        work(&deck[..size]);
    }
}

// Load on the machine file at path, with the deck that the next word names.
pub fn load(
    rt: &(impl Files + Env + Print + RandomSource),
    texts: &impl Print,
    path: &[u8],
    options: Options,
) {
    with_deck(
        rt,
        texts,
        path,
        |deck| load_on(rt, texts, path, deck, options),
    );
}

// Run on the machine file at path, with the deck that the next word names.
pub fn run(
    rt: &(impl Files + Env + Print + RandomSource),
    texts: &impl Print,
    path: &[u8],
    options: Options,
) {
    with_deck(
        rt,
        texts,
        path,
        |deck| run_on(rt, texts, path, deck, options),
    );
}

// A file is made of bytes that are the new machine file of these cells.
fn make_file(rt: &impl Files, texts: &impl Print, path: &[u8], bytes: &[u8], drum: &[u64]) -> bool
    requires { bytes.now ≡ new_file drum.now }
{
    disk::make(rt, texts, path, bytes)
}

// A new machine file of these cells, with no marks and a state of nine zeros. Where it is not made, that is said.
fn make(rt: &impl Files, texts: &impl Print, path: &[u8], drum: &[u64]) -> bool {
    let marks = room::<1000>();
    let mut bytes = room::<9072>();
    if file::write_file(&mut bytes, drum, &marks, states::none()) {
        return make_file(rt, texts, path, &bytes, drum);
    }
    false
}

// The text of cells at path, onto a drum.
fn fill_drum(rt: &impl Files, texts: &impl Print, drum: &mut [u64], path: &[u8]) -> bool {
    let mut room = room::<262145>();
    let Some(n) = read_whole(rt, texts, &mut room, path) else {
        return false;
    };
    if 262_144 < n {
        says::too_long(texts, path);
        return false;
    }
    if !file::read_cells(drum, &room[..n]) {
        says::not_cells(texts, path);
        return false;
    }
    true
}

// A new machine file whose cells are those of the text that the next word names.
fn new_filled(rt: &(impl Files + Env), texts: &impl Print, path: &[u8]) {
    let mut name = room::<4096>();
    let Some(n) = name_at(rt, texts, &mut name, 3) else {
        return;
    };
    let mut drum = empty_drum();
    if fill_drum(rt, texts, &mut drum, &name[..n]) {
        make(rt, texts, path, &drum);
    }
}

// A new machine file, whose cells are 0 or those of a text.
pub fn new(rt: &(impl Files + Env), texts: &impl Print, path: &[u8]) {
    if 3 < word_count(rt) {
        new_filled(rt, texts, path);
        return;
    }
    let drum = empty_drum();
    make(rt, texts, path, &drum);
}
