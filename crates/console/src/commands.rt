//! The commands of the program: what they read, write and print.
ghost use Rattle.std.specs.Prelude.{◌≡◌, ◌≢◌, ◌⊎◌, ℕ, suc, ◌<◌, ◌≤◌, length, slice_index};

use crate::rom::{MAX_BYTES, words_of};
use crate::wording::{USAGE, pack_refusal};
use inspect::check;
use kit::{Atoms, Pair, Rom};
use packer::{PackFault, Source, pack};
use report::{Refusal, list, outline};
use std::alloc::{AllocError, AllocFailed, Global};
use std::io::Write;
use std::{env, fs, io};

/// Why the program ends with status 1. By then the person has been told, unless there was no way
/// left to tell them anything.
#[derive(Debug, Drop)]
pub enum Stop {
    /// What was asked for was refused, and the answer says why.
    Refused,
    /// Memory ran out, or a stream could not be written.
    Broken,
}

impl From<AllocError> for Stop {
    fn from(_e: AllocError) -> Stop {
        Stop::Broken
    }
}

impl<T: Drop> From<AllocFailed<T>> for Stop {
    fn from(_e: AllocFailed<T>) -> Stop {
        Stop::Broken
    }
}

impl From<io::Error> for Stop {
    fn from(_e: io::Error) -> Stop {
        Stop::Broken
    }
}

/// Prints what a command answers; a refusal ends the program with status 1.
fn answer(rt: &HostRuntime, answer: Result<Vec<u8>, Refusal>) -> Result<(), Stop> {
    match answer {
        Ok(text) => {
            rt.stdout().write_all(text.as_slice())?;
            Ok(())
        }
        Err(Refusal::Told(text)) => {
            rt.stdout().write_all(text.as_slice())?;
            Err(Stop::Refused)
        }
        Err(Refusal::NoMemory) => Err(Stop::Broken),
    }
}

/// The bytes of a file, or a message that says which file cannot be read.
fn read_file(rt: &HostRuntime, path: &str) -> Result<Vec<u8>, Stop> {
    match fs::read(rt, path) {
        Ok(bytes) => Ok(bytes),
        Err(error) => {
            eprintln!(rt; "tethersecond: cannot read {path}: {error}; check the file's name")?;
            Err(Stop::Refused)
        }
    }
}

/// Says that a command was not given what it needs.
fn misused(rt: &HostRuntime, command: &str, form: &str) -> Result<(), Stop> {
    eprintln!(rt; "tethersecond: {command} is used like this: tethersecond {command} {form}")?;
    Err(Stop::Refused)
}

/// The bytes of each file.
fn read_files(rt: &HostRuntime, paths: &[String]) -> Result<Vec<Vec<u8>>, Stop> {
    let mut texts = Vec::new(rt.alloc());
    for path in paths {
        texts.push(read_file(rt, path.as_str())?)?;
    }
    Ok(texts)
}

/// The place behind the last `/`, or 0.
// `report` finds where a line begins by the same chain: a third crate for it would be longer than both.
fn file_start(path: &[u8]) -> usize
    ensures within { result ≤ length path.now }
    ensures begins { (result ≡ 0) ⊎ ((k : ℕ) × (suc k ≡ result) × (slice_index path.now k ≡ 47)) }
    ensures behind { (k : ℕ) → result ≤ k → k < length path.now → slice_index path.now k ≢ 47 }
{
    path.iter().rposition(|b| *b == b'/').map_or(0, |i| i + 1)
}

/// The name of the text in a file: the file's name without folder and `.hdl`.
fn text_name(path: &[u8]) -> &[u8] {
    let file = &path[file_start(path)..];
    file.strip_suffix(b".hdl").unwrap_or(file)
}

/// Each text with the name of its file.
// Where the test programs name texts, by letters, only this chain is the same.
fn sources_of<'a>(
    heap: Global,
    paths: &'a [String],
    texts: &'a [Vec<u8>],
) -> Result<Vec<Source<'a>>, AllocError> {
    paths
        .iter()
        .zip(texts)
        .map(|(path, text)| Source {
            name: text_name(path.as_bytes()),
            text: text.as_slice(),
        })
        .collect(heap)
}

/// The bundle of the texts, under the names of their files.
fn pack_texts<'a>(
    heap: Global,
    paths: &'a [String],
    texts: &'a [Vec<u8>],
) -> Result<Vec<u8>, PackFault> {
    let sources = sources_of(heap, paths, texts)?;
    pack(heap, sources.as_slice())
}

/// Packs the files into a bundle, and writes it.
fn pack_files(rt: &HostRuntime, out: &str, paths: &[String]) -> Result<(), Stop> {
    let heap = rt.alloc();
    let texts = read_files(rt, paths)?;
    match pack_texts(heap, paths, texts.as_slice()) {
        Ok(bundle) => write_bundle(rt, out, paths.len(), bundle.as_slice()),
        Err(fault) => {
            let why = pack_refusal(heap, fault, paths)?;
            eprintln!(rt; "tethersecond: {why}")?;
            Err(Stop::Refused)
        }
    }
}

/// Writes a bundle of so many texts to a file, and says so.
fn write_bundle(rt: &HostRuntime, out: &str, count: usize, bundle: &[u8]) -> Result<(), Stop> {
    let size = bundle.len();
    match fs::write(rt, out, bundle) {
        Ok(()) => {
            println!(rt; "packed {count} texts, {size} bytes: {out}")?;
            Ok(())
        }
        Err(error) => {
            eprintln!(rt; "tethersecond: cannot write {out}: {error}; choose another place")?;
            Err(Stop::Refused)
        }
    }
}

/// The words of a ROM's file, or a message that says what is wrong with it.
fn read_rom(rt: &HostRuntime, path: &str) -> Result<Vec<u16>, Stop> {
    let bytes = read_file(rt, path)?;
    if bytes.len() % 2 == 1 || bytes.len() > MAX_BYTES {
        eprintln!(rt;
            "tethersecond: {path} is no ROM: give a file of at most 32768 words of two bytes, the low byte first"
        )?;
        return Err(Stop::Refused);
    }
    Ok(words_of(rt.alloc(), bytes.as_slice())?)
}

/// Shows what is answered of the bytes of a bundle.
fn show<F: Fn(Global, &[u8]) -> Result<Vec<u8>, Refusal>>(
    rt: &HostRuntime,
    bundle: &str,
    ask: F,
) -> Result<(), Stop>
    requires { F.IsAlwaysCallable ask }
{
    let bytes = read_file(rt, bundle)?;
    answer(rt, ask(rt.alloc(), bytes.as_slice()))
}

/// Checks a bundle with the atoms, and a ROM if there is a file for it.
fn check_bundle(rt: &HostRuntime, bundle: &str, rom: Option<&str>) -> Result<(), Stop> {
    let heap = rt.alloc();
    let bytes = read_file(rt, bundle)?;
    match rom {
        None => answer(rt, check(heap, &Atoms, bytes.as_slice())),
        Some(path) => {
            let words = read_rom(rt, path)?;
            let kit = Pair::new(Atoms, Rom::new(words.as_slice()));
            answer(rt, check(heap, &kit, bytes.as_slice()))
        }
    }
}

/// Does what the words after the program's name say.
// A `match`: a table of commands would want one type for what each is given.
fn dispatch(rt: &HostRuntime, words: &[String]) -> Result<(), Stop> {
    let [command, rest @ ..] = words else {
        print!(rt; "{USAGE}")?;
        return Ok(());
    };
    match (command.as_str(), rest) {
        ("help" | "--help" | "-h", _) => {
            print!(rt; "{USAGE}")?;
            Ok(())
        }
        ("pack", [out, paths @ ..]) if !paths.is_empty() => pack_files(rt, out.as_str(), paths),
        ("pack", _) => misused(rt, "pack", "OUT FILE.hdl ..."),
        // Closures, since a function of another crate that is passed by its name gets no proof.
        ("list", [bundle]) => show(rt, bundle.as_str(), |heap, bytes| list(heap, bytes)),
        ("outline", [bundle]) => show(rt, bundle.as_str(), |heap, bytes| outline(heap, bytes)),
        ("list" | "outline", _) => misused(rt, command.as_str(), "BUNDLE"),
        ("check", [bundle]) => check_bundle(rt, bundle.as_str(), None),
        ("check", [flag, rom, bundle]) if flag.as_str() == "--rom" => {
            check_bundle(rt, bundle.as_str(), Some(rom.as_str()))
        }
        ("check", _) => misused(rt, "check", "[--rom FILE] BUNDLE"),
        (other, _) => {
            eprintln!(rt; "tethersecond: there is no command {other}: see tethersecond --help")?;
            Err(Stop::Refused)
        }
    }
}

/// Does what the program was called to do.
pub fn run(rt: &HostRuntime) -> Result<(), Stop> {
    let words = env::args(rt)?.skip(1).collect::<Vec<String>>(rt.alloc())?;
    dispatch(rt, words.as_slice())
}
