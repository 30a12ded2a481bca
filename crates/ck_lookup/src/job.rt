ghost use Rattle.std.specs.Prelude.{◌≡◌, ◌∷◌, List, ℕ, IfOk, IfErr, OnOk, map, length, ◌<◌, ◌≤◌};
ghost use Rattle.ck_io.specs.Faults.{NeverFall};
ghost use Rattle.ck_lookup.specs.Causes.{AreSaid};
ghost use Rattle.ck_lookup.specs.Running.{AreRunnable, IsRefusedScript, IsRefusedRun};

use crate::fetch::fetch_all;
use crate::kinds::RunKind;
use crate::outcome::Outcome;
use crate::scripts::read_scripts_by;
use ck_io::Shelf;
use ck_pool::Job;
use std::alloc::Global;
use std::thread::Threads;

/// What the files under these names ask for, or the outcome of a run that gets no report. Where more tasks than one are
/// allowed, large files are read side by side.
pub fn job_of<T: RunKind, R: Threads + Sync, S: Shelf>(
    rt: &R,
    alloc: Global,
    tasks: u64,
    updates: &str,
    queries: &[&str],
    shelf: &mut S,
) -> Result<Job<T::UpFile, T::AskFile>, Outcome>
    ensures runnable { IfOk result (λ job. AreRunnable T.kind (S.held shelf.old) (updates.now ∷ map (λ name. name.now) queries.now) (T.UpFile.items job.ups) (map T.AskFile.items job.asks.items)) }
    ensures fetched { OnOk result (S.faults shelf.new ≡ S.faults shelf.old) }
    ensures refused { IfErr result (IsRefusedRun T.kind (S.held shelf.old) (updates.now ∷ map (λ name. name.now) queries.now) (S.faults shelf.old) (S.faults shelf.new)) }
    ensures held { S.held shelf.new ≡ S.held shelf.old }
    ensures lasting { NeverFall (S.faults shelf.old) (S.faults shelf.new) }
{
    let files = fetch_all(alloc, shelf, updates, queries)?;
    job_of_files::<T, R>(rt, alloc, tasks, files.all())
}

// What the bytes of files ask for, the update file first.
fn job_of_files<T: RunKind, R: Threads + Sync>(
    rt: &R,
    alloc: Global,
    tasks: u64,
    files: &[Vec<u8>],
) -> Result<Job<T::UpFile, T::AskFile>, Outcome>
    requires { 0 < length files.now }
    ensures said { (update_file : List ℕ) (query_files : List (List ℕ)) → map (λ file. file.items) files.now ≡ update_file ∷ query_files
        → IfOk result (λ job. AreSaid T.kind update_file query_files (T.UpFile.items job.ups) (map T.AskFile.items job.asks.items)) }
    ensures refused { (update_file : List ℕ) (query_files : List (List ℕ)) → map (λ file. file.items) files.now ≡ update_file ∷ query_files
        → IfErr result (IsRefusedScript T.kind update_file query_files) }
{
    match files {
        [] => unreachable!(),
        [update_file, query_files @ ..] => {
            read_scripts_by::<T, R>(rt, alloc, tasks, update_file, query_files)
        }
    }
}
