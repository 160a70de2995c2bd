// What a program reads: its input, and the files that its arguments name.
#![tactic(auto)]

ghost use Rattle.arguments.specs.Runs.{RanIf, RanOn, RanOnce};
ghost use Rattle.std.specs.Io.KnownBytes.{Consumes};
ghost use Rattle.std.specs.List.{FoldsTo, slice_get};
ghost use Rattle.std.specs.Option.{option_map_or};
ghost use Rattle.std.specs.Prelude.{◌≡◌, ℕ, List, [], Option, OnOk, ◌≤◌, length, take, string_bytes, IfOk, IfSome};

use std::env::Env;
use std::fs::Files;
use std::io::Read;
use std::{env, fs, io};

// The most bytes that are read of a container: one more than its limit, so that a longer one shows.
pub const MOST: usize = 65537;

// Runs a trial on the bytes of each file that the arguments name, and prints the file's name first. A file that can't be opened is told on standard
// error, and passed over.
pub fn for_each_file<R, F>(rt: &R, trial: F) -> io::Result<()>
where
    R: Files + Print + Eprint + Env + AllocGlobal,
    F: FnMut(&[u8]) -> io::Result<()>,
    requires { F.IsAlwaysCallable trial }
    ensures { OnOk result ((runs : List (List ℕ)) × (last : F) × FoldsTo (RanOn F.FnMut) trial runs last) }
{
    let names: Vec<String> = env::args(rt)?.skip(1).collect(rt.alloc())?;
    for_each(rt, &names, trial)
}

// The same for the files of some names. Each name has an outcome, in their order: the bytes that the trial ran on, or none.
fn for_each<R, F>(rt: &R, names: &[String], mut trial: F) -> io::Result<()>
where
    R: Files + Print + Eprint,
    F: FnMut(&[u8]) -> io::Result<()>,
    requires { F.IsAlwaysCallable trial }
    ensures { OnOk result ((tried : List (Option (List ℕ))) × (length tried ≡ length names.now)
        × (last : F) × FoldsTo (RanIf F.FnMut) trial tried last) }
{
    for name in names {
        run_file(rt, name, &mut trial)?;
    }
    Ok(())
}

// Runs a trial on the bytes of one file.
fn run_file<R, F>(rt: &R, name: &str, trial: &mut F) -> io::Result<()>
where
    R: Files + Print + Eprint,
    F: FnMut(&[u8]) -> io::Result<()>,
    requires { F.IsAlwaysCallable trial.old }
    ensures again { F.IsAlwaysCallable trial.new }
    ensures ran { OnOk result (RanOnce F.FnMut trial.old trial.new) }
{
    let mut bytes = [0u8; MOST];
    if let Some(length) = read_file(rt, name, true, &mut bytes)? {
        trial(&bytes[..length])?;
    }
    Ok(())
}

// The name at an index, or an empty one, which is that of no file.
pub fn name_at(names: &[String], index: usize) -> &str
    ensures { result.now ≡ option_map_or string_bytes (slice_get names.now index) [] }
{
    names.get(index).map_or("", |name| name.as_str())
}

// Reads the file of a name into the bytes, and answers how many it read, or none where the file can't be opened. Which bytes a file has, no contract
// can say. Where `named`, prints the name: here, since it stands before what reading the file makes of it.
pub fn read_file<R: Files + Print + Eprint>(
    rt: &R,
    name: &str,
    named: bool,
    bytes: &mut [u8],
) -> io::Result<Option<usize>>
    ensures within { IfOk result (λ found. IfSome found (λ read. read ≤ length bytes.new)) }
    ensures room { length bytes.new ≡ length bytes.old }
{
    let mut file = match fs::open(rt, name) {
        Ok(file) => file,
        Err(error) => {
            eprintln!(rt; "{name}: {error}")?;
            return Ok(None);
        }
    };
    if named {
        print!(rt; "{name}")?;
    }
    let read = read_full(&mut file, bytes)?;
    Ok(Some(read))
}

// Reads until the bytes are full or the reader ends, and answers how many it read. Each reading asks for all that there is room for, so that a
// reader which gives a message at a time cuts none: `read_to_end` asks for 512 bytes first. Into bytes that are lent, so that the programs
// that read their input alone call no allocator (docs/ASSURANCE.md).
pub fn read_full<R: Read>(reader: &mut R, bytes: &mut [u8]) -> io::Result<usize>
    ensures within { IfOk result (λ read. read ≤ length bytes.new) }
    ensures room { length bytes.new ≡ length bytes.old }
    ensures known { IfOk result (λ read. IfSome (R.remaining reader.old) (λ all. take read bytes.new ≡ take (length bytes.old) all)) }
    ensures left { IfOk result (λ read. Consumes (R.remaining reader.old) (R.remaining reader.new) (take read bytes.new)) }
{
    let mut read = 0;
    while read < bytes.len() {
        let more = reader.read(&mut bytes[read..])?;
        if more == 0 {
            break;
        }
        read += more;
    }
    Ok(read)
}
