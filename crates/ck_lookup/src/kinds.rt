//! What the kinds of runs differ in.
ghost use Rattle.std.specs.Prelude.{◌≡◌, IfOk, IfErr, map};
ghost use Rattle.std.specs.List.{list_any};
ghost use Rattle.ck_script.specs.Fronts.{is_wait, any_hold};
ghost use Rattle.ck_script.specs.Grammar.{FileSays, IsFirstFault, IfFault};

use ck_script::{AskLine, LineList, RangeFault, ScriptError, UpLine};
use std::alloc::Global;

/// A kind of run: how its files are read. It may be named in any task, since each file may be read by a task of its own.
pub trait RunKind: Sync {
    ghost use Rattle.ck_lookup.specs.Kinds.{Kind};

    /// What a line of an update file asks for.
    type Call: Drop + Send + Sync;

    /// What a line of a query file asks for.
    type Ask: Drop + Send + Sync;

    /// The lines of an update file, as they are kept.
    type UpFile: LineList<UpLine<Self::Call>> + Drop + Send;

    /// The lines of a query file, as they are kept.
    type AskFile: LineList<AskLine<Self::Ask>> + Drop + Send;

    // What the definitions of a run see of the kind.
    ghost kind: { Kind Self.Call Self.Ask };

    /// What the lines of an update file say, and whether one of them is a `hold`.
    fn scan_updates(alloc: Global, bytes: &[u8]) -> Result<(Self::UpFile, bool), ScriptError>
        ensures read { IfOk result (λ x. FileSays kind.updates.is_line kind.updates.words bytes.now (Self.UpFile.items x.0)) }
        ensures holds { IfOk result (λ x. x.1 ≡ any_hold (Self.UpFile.items x.0)) }
        ensures fault { IfErr result (λ error. IfFault error (IsFirstFault kind.updates.is_line kind.updates.words kind.updates.is_fault bytes.now)) };

    /// What the lines of a query file say, and whether one of them is a `wait`.
    fn scan_queries(alloc: Global, bytes: &[u8]) -> Result<(Self::AskFile, bool), ScriptError>
        ensures read { IfOk result (λ x. FileSays kind.queries.is_line kind.queries.words bytes.now (Self.AskFile.items x.0)) }
        ensures waits { IfOk result (λ x. x.1 ≡ list_any (λ l. is_wait l.what) (Self.AskFile.items x.0)) }
        ensures fault { IfErr result (λ error. IfFault error (IsFirstFault kind.queries.is_line kind.queries.words kind.queries.is_fault bytes.now)) };

    /// The first query that is one too many, over the query files in order.
    fn surplus(asks: &[Self::AskFile]) -> Option<RangeFault>
        ensures { result ≡ kind.surplus (map Self.AskFile.items asks.now) };
}
