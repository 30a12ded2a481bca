//! The writer's copies of regions: their words, and how the pairs of the present one are copied into one that isn't published.
ghost use Rattle.std.specs.Prelude.{◌≡◌, ℕ, ◌+◌, ◌*◌, ◌^◌, ◌<◌, ◌≤◌, List, length, map, slice_index};
ghost use Rattle.ck_run.specs.declared.account.Step.{Step};
ghost use Rattle.ck_run.specs.Run.{further};
ghost use Rattle.ck_run.specs.Tokens.{table};
ghost use Rattle.ck_epoch.specs.Ends.{IsDomainToken};
ghost use Rattle.ck_history.specs.declared.log.LogEntry.{LogEntry};
ghost use Rattle.ck_htlaw.specs.Host.{host, lies};
ghost use Rattle.ck_htlaw.specs.Known.{knows};
ghost use Rattle.ck_htlaw.specs.Layout.{log_of};
ghost use Rattle.ck_htlaw.specs.Table.{WriterState};
ghost use Rattle.ck_htwrite.specs.Rebuild.{CanHoldAll, CopiesAt, with_pair};
ghost use Rattle.ck_htwrite.specs.Writes.{counters_in, Steps};

use crate::rebuild::{first_empty, store_pair};
use crate::state::HtState;
use ck_epoch::{Domain, Within, Writer};
use ck_htlaw::HtClient;
use ck_htplan::{FULL, HIGH, LOW, SLOT_WORDS, STATE, VALUE};
use ck_probe::key_code;
use ck_run::Continues;

// The word `j` of a slot.
pub(crate) fn word_in(words: &Vec<u64>, at: u64, j: u64) -> u64
    requires { 4 * at + j < length words.now.items }
    ensures { result ≡ slice_index words.now.items (4 * at + j) }
{
    words[(SLOT_WORDS * at + j) as usize]
}

// Puts a pair into the slot `at` of a copy.
pub(crate) fn put_pair(words: &mut Vec<u64>, at: u64, low: u64, high: u64, value: u64)
    requires slot { 4 * at + 3 < length words.old.items }
    requires few { at < 524288 }
    ensures { words.new ≡ with_pair words.old at low high value }
{
    let first = SLOT_WORDS * at;
    words[(first + VALUE) as usize] = value;
    words[(first + LOW) as usize] = low;
    words[(first + HIGH) as usize] = high;
    words[(first + STATE) as usize] = FULL;
}

// Copies the pair of the old slot `i`, if it is full, to the first empty slot of its key's order in the region of this root.
fn copy_slot<D: Within<HtClient>, F>(
    domain: &Domain<D>,
    writer: &mut Writer<D, F>,
    state: &mut HtState,
    root: u64,
    i: u64,
)
    requires table { table writer.old.token ≡ domain.now }
    requires slot { i < 2 ^ log_of state.old.root }
    requires can { CanHoldAll (counters_in (host D.meaning D.place D.part) domain.now.origin) state.old root }
    requires due { (p : WriterState) × (call : List ℕ) × (due : LogEntry ℕ) × (told : List (LogEntry ℕ)) × CopiesAt (counters_in (host D.meaning D.place D.part) domain.now.origin) (lies (host D.meaning D.place D.part) domain.now.origin) (knows (host D.meaning D.place D.part) domain.now.origin writer.old.token) p call due told state.old root i }
    requires token { IsDomainToken D.meaning writer.old.token }
    ensures steps { (ss : List Step) × Steps (host D.meaning D.place D.part) domain.now.origin writer.old (map further ss) writer.new }
    ensures state { state.new ≡ record state.old { spare = state.new.spare } }
    ensures at { (p : WriterState) (call : List ℕ) (due : LogEntry ℕ) (told : List (LogEntry ℕ)) → CopiesAt (counters_in (host D.meaning D.place D.part) domain.now.origin) (lies (host D.meaning D.place D.part) domain.now.origin) (knows (host D.meaning D.place D.part) domain.now.origin writer.old.token) p call due told state.old root i
        → CopiesAt (counters_in (host D.meaning D.place D.part) domain.now.origin) (lies (host D.meaning D.place D.part) domain.now.origin) (knows (host D.meaning D.place D.part) domain.now.origin writer.new.token) p call due told state.new root (i + 1) }
{
    if word_in(&state.words, i, STATE) != FULL {
        return;
    }
    let low = word_in(&state.words, i, LOW);
    let high = word_in(&state.words, i, HIGH);
    let value = word_in(&state.words, i, VALUE);
    let hash = key_code(low, high, domain.client().inner().seed);
    let to = first_empty(&state.spare, root % 32, hash);
    store_pair::<D, F, Continues>(domain, writer, root, to, low, high, value);
    put_pair(&mut state.spare, to, low, high, value);
}

// Copies all pairs of the present region, old slot by old slot, into the region of this root, which is cleared.
pub(crate) fn copy_all<D: Within<HtClient>, F>(
    domain: &Domain<D>,
    writer: &mut Writer<D, F>,
    state: &mut HtState,
    root: u64,
)
    requires table { table writer.old.token ≡ domain.now }
    requires can { CanHoldAll (counters_in (host D.meaning D.place D.part) domain.now.origin) state.old root }
    requires few { log_of state.old.root ≤ 19 }
    requires due { (p : WriterState) × (call : List ℕ) × (due : LogEntry ℕ) × (told : List (LogEntry ℕ)) × CopiesAt (counters_in (host D.meaning D.place D.part) domain.now.origin) (lies (host D.meaning D.place D.part) domain.now.origin) (knows (host D.meaning D.place D.part) domain.now.origin writer.old.token) p call due told state.old root 0 }
    requires token { IsDomainToken D.meaning writer.old.token }
    ensures steps { (ss : List Step) × Steps (host D.meaning D.place D.part) domain.now.origin writer.old (map further ss) writer.new }
    ensures state { state.new ≡ record state.old { spare = state.new.spare } }
    ensures at { (p : WriterState) (call : List ℕ) (due : LogEntry ℕ) (told : List (LogEntry ℕ)) → CopiesAt (counters_in (host D.meaning D.place D.part) domain.now.origin) (lies (host D.meaning D.place D.part) domain.now.origin) (knows (host D.meaning D.place D.part) domain.now.origin writer.old.token) p call due told state.old root 0
        → CopiesAt (counters_in (host D.meaning D.place D.part) domain.now.origin) (lies (host D.meaning D.place D.part) domain.now.origin) (knows (host D.meaning D.place D.part) domain.now.origin writer.new.token) p call due told state.new root (2 ^ log_of state.old.root) }
{
    for i in 0..1 << (state.root % 32) {
        copy_slot(domain, writer, state, root, i);
    }
}
