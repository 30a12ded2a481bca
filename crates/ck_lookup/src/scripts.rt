ghost use Rattle.std.specs.Prelude.{◌≡◌, ◌+◌, ◌<◌, nat_le, List, ℕ, Some, None, IfOk, IfErr, MatchResult, length, map, slice_get};
ghost use Rattle.std.specs.List.{list_any};
ghost use Rattle.ck_script.specs.Checks.{range_fault, circle_fault};
ghost use Rattle.ck_script.specs.Fronts.{any_hold, any_wait};
ghost use Rattle.ck_lookup.specs.Causes.{AreSaid, checks_refusal, refused_as};
ghost use Rattle.ck_lookup.specs.Running.{IsRefusedScript, refusal_of};
ghost use Rattle.ck_lookup.specs.FilesRead.{IsUpdateFileRead, IsQueryFileRead, AreQueryFilesRead, AreReadEach};

use crate::kinds::RunKind;
use crate::outcome::Outcome;
use ck_pool::Job;
use ck_script::{
    AskLine, LineList, RangeFault, ScriptError, UpLine, Why, check_circles, check_ranges,
};
use std::alloc::Global;
use std::thread;
use std::thread::Threads;

/// From so many bytes on it is worth a thread to read a file beside the others.
const LARGE: usize = 131_072;

/// What the files say, or the outcome of the first line that is outside the grammar or that the checks refuse.
pub fn read_scripts<T: RunKind>(
    alloc: Global,
    update_file: &[u8],
    query_files: &[Vec<u8>],
) -> Result<Job<T::UpFile, T::AskFile>, Outcome>
    ensures said { IfOk result (λ job. AreSaid T.kind update_file.now (map (λ file. file.items) query_files.now) (T.UpFile.items job.ups) (map T.AskFile.items job.asks.items)) }
    ensures refused { IfErr result (IsRefusedScript T.kind update_file.now (map (λ file. file.items) query_files.now)) }
{
    let updates = updates_in::<T>(alloc, update_file);
    let queries = queries_in::<T>(alloc, query_files);
    put_together::<T>(update_file, query_files, updates, queries)
}

/// What `read_scripts` tells. Where several tasks may read and some file is large, each file is read by a task of its own.
pub fn read_scripts_by<T: RunKind, R: Threads + Sync>(
    rt: &R,
    alloc: Global,
    tasks: u64,
    update_file: &[u8],
    query_files: &[Vec<u8>],
) -> Result<Job<T::UpFile, T::AskFile>, Outcome>
    ensures said { IfOk result (λ job. AreSaid T.kind update_file.now (map (λ file. file.items) query_files.now) (T.UpFile.items job.ups) (map T.AskFile.items job.asks.items)) }
    ensures refused { IfErr result (IsRefusedScript T.kind update_file.now (map (λ file. file.items) query_files.now)) }
{
    if tasks <= 1 || !(update_file.len() >= LARGE || has_large(query_files)) {
        return read_scripts::<T>(alloc, update_file, query_files);
    }
    let read_updates = || -> Result<(T::UpFile, bool), Outcome>
        ensures { IsUpdateFileRead T.kind T.UpFile.items update_file.entry.now result }
    { updates_in::<T>(alloc, update_file) };
    let read_queries = || -> Result<(Vec<T::AskFile>, bool), Outcome>
        ensures { AreQueryFilesRead T.kind T.AskFile.items (map (λ file. file.items) query_files.entry.now) result }
    { queries_side_by_side::<T, R>(rt, alloc, query_files) };
    let (updates, queries) = thread::join(rt, read_updates, read_queries);
    put_together::<T>(update_file, query_files, updates, queries)
}

// Whether a file is large.
fn has_large(files: &[Vec<u8>]) -> bool
    ensures { result ≡ list_any (λ file. nat_le 131072 (length file.items)) files.now }
{
    for file in files {
        if file.len() >= LARGE {
            return true;
        }
    }
    false
}

// The scripts of files that were read, of which one may have been refused. The update file comes first, then the query
// files in order.
fn put_together<T: RunKind>(
    update_file: &[u8],
    query_files: &[Vec<u8>],
    updates: Result<(T::UpFile, bool), Outcome>,
    queries: Result<(Vec<T::AskFile>, bool), Outcome>,
) -> Result<Job<T::UpFile, T::AskFile>, Outcome>
    requires updates { IsUpdateFileRead T.kind T.UpFile.items update_file.now updates }
    requires queries { AreQueryFilesRead T.kind T.AskFile.items (map (λ file. file.items) query_files.now) queries }
    ensures said { IfOk result (λ job. AreSaid T.kind update_file.now (map (λ file. file.items) query_files.now) (T.UpFile.items job.ups) (map T.AskFile.items job.asks.items)) }
    ensures refused { IfErr result (IsRefusedScript T.kind update_file.now (map (λ file. file.items) query_files.now)) }
{
    // Only the contract reads these: they say of which files the results are.
    let _update_file = update_file;
    let _query_files = query_files;
    let (ups, holds) = updates?;
    let (asks, waits) = queries?;
    check::<T>(holds, waits, &ups, &asks)?;
    Ok(Job { ups, asks })
}

// The refusal of the first line that is beyond what there is, or else of the first query that there are too many of, or else of the first
// line that would wait for ever.
fn check<T: RunKind>(
    holds: bool,
    waits: bool,
    ups: &T::UpFile,
    asks: &[T::AskFile],
) -> Result<(), Outcome>
    requires holds { holds ≡ any_hold (T.UpFile.items ups.now) }
    requires waits { waits ≡ any_wait (map T.AskFile.items asks.now) }
    ensures { MatchResult result (λ _. checks_refusal T.kind (T.UpFile.items ups.now) (map T.AskFile.items asks.now) ≡ None) (λ refusal. checks_refusal T.kind (T.UpFile.items ups.now) (map T.AskFile.items asks.now) ≡ Some refusal) }
{
    if let Some(fault) = find_beyond(holds, waits, ups, asks) {
        return Err(refused(Why::Beyond, fault));
    }
    if let Some(fault) = T::surplus(asks) {
        return Err(refused(Why::Many, fault));
    }
    match find_circle(holds, ups, asks) {
        None => Ok(()),
        Some(fault) => Err(refused(Why::Circle, fault)),
    }
}

// The first line that is beyond. Only one at which a task waits can be, so most scripts need no pass.
fn find_beyond<C: Drop, Q: Drop, U: LineList<UpLine<C>>, F: LineList<AskLine<Q>>>(
    holds: bool,
    waits: bool,
    ups: &U,
    asks: &[F],
) -> Option<RangeFault>
    requires holds { holds ≡ any_hold (U.items ups.now) }
    requires waits { waits ≡ any_wait (map F.items asks.now) }
    ensures { result ≡ range_fault (U.items ups.now) (map F.items asks.now) }
{
    if !holds && !waits {
        return None;
    }
    check_ranges(ups, asks)
}

// The first line that would wait for ever, which is a `hold`.
fn find_circle<C: Drop, Q: Drop, U: LineList<UpLine<C>>, F: LineList<AskLine<Q>>>(
    holds: bool,
    ups: &U,
    asks: &[F],
) -> Option<RangeFault>
    requires { holds ≡ any_hold (U.items ups.now) }
    ensures { result ≡ circle_fault (U.items ups.now) (map F.items asks.now) }
{
    if !holds {
        return None;
    }
    check_circles(ups, asks)
}

// How a run ends of which a check names this line.
fn refused(why: Why, fault: RangeFault) -> Outcome
    ensures { result ≡ refused_as why fault }
{
    Outcome::BadScript {
        file: fault.file,
        line: fault.line,
        why,
    }
}

// The lines of the update file, and whether one of them is a `hold`.
fn updates_in<T: RunKind>(alloc: Global, bytes: &[u8]) -> Result<(T::UpFile, bool), Outcome>
    ensures { IsUpdateFileRead T.kind T.UpFile.items bytes.now result }
{
    match T::scan_updates(alloc, bytes) {
        Ok(scanned) => Ok(scanned),
        Err(error) => Err(refusal(0, error)),
    }
}

// The lines of each query file, and whether one of them is a `wait`.
fn queries_in<T: RunKind>(
    alloc: Global,
    files: &[Vec<u8>],
) -> Result<(Vec<T::AskFile>, bool), Outcome>
    ensures { AreQueryFilesRead T.kind T.AskFile.items (map (λ file. file.items) files.now) result }
{
    let mut asks = Vec::new(alloc);
    let mut waits = false;
    let mut number: u64 = 0;
    for file in files {
        number += 1;
        let (said, has_wait) = queries_of::<T>(alloc, number, file)?;
        asks.push(said)?;
        waits |= has_wait;
    }
    Ok((asks, waits))
}

// The same, where each file is read by a task of its own.
fn queries_side_by_side<T: RunKind, R: Threads + Sync>(
    rt: &R,
    alloc: Global,
    files: &[Vec<u8>],
) -> Result<(Vec<T::AskFile>, bool), Outcome>
    ensures { AreQueryFilesRead T.kind T.AskFile.items (map (λ file. file.items) files.now) result }
{
    let read = |i: usize| -> Result<(T::AskFile, bool), Outcome>
        requires { i < length files.now }
        ensures { (bytes : List ℕ) → slice_get (map (λ file. file.items) files.entry.now) i ≡ Some bytes → IsQueryFileRead T.kind T.AskFile.items (i + 1) bytes result }
    { queries_of::<T>(alloc, i as u64 + 1, &files[i]) };
    let said = thread::map_indices(rt, alloc, files.len(), &read)?;
    gather::<T>(alloc, files, said)
}

// The lines of all query files, where those of each were read, or the refusal of the first that is refused.
fn gather<T: RunKind>(
    alloc: Global,
    files: &[Vec<u8>],
    said: Vec<Result<(T::AskFile, bool), Outcome>>,
) -> Result<(Vec<T::AskFile>, bool), Outcome>
    requires len { length said.items ≡ length files.now }
    requires each { AreReadEach T.kind T.AskFile.items (map (λ file. file.items) files.now) said.items }
    ensures { AreQueryFilesRead T.kind T.AskFile.items (map (λ file. file.items) files.now) result }
{
    // Only the contract reads these.
    let _files = files;
    let mut asks = Vec::new(alloc);
    let mut waits = false;
    for one in said {
        let (lines, has_wait) = one?;
        asks.push(lines)?;
        waits = waits | has_wait;
    }
    Ok((asks, waits))
}

// The lines of the query file with this number, and whether one of them is a `wait`.
fn queries_of<T: RunKind>(
    alloc: Global,
    number: u64,
    bytes: &[u8],
) -> Result<(T::AskFile, bool), Outcome>
    ensures { IsQueryFileRead T.kind T.AskFile.items number bytes.now result }
{
    match T::scan_queries(alloc, bytes) {
        Ok(scanned) => Ok(scanned),
        Err(error) => Err(refusal(number, error)),
    }
}

// How a run ends that can't read a script.
fn refusal(file: u64, error: ScriptError) -> Outcome
    ensures { result ≡ refusal_of file error }
{
    match error {
        ScriptError::Fault(fault) => Outcome::BadScript {
            file,
            line: fault.line,
            why: fault.why,
        },
        ScriptError::Memory => Outcome::NoMemory,
    }
}
