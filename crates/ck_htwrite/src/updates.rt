//! The cases of an update, store by store.
ghost use Rattle.std.specs.Prelude.{◌≡◌, ◌+◌, ◌^◌, ◌<◌};
ghost use Rattle.ck_run.specs.Tokens.{table};
ghost use Rattle.ck_htlaw.specs.Host.{host, lies};
ghost use Rattle.ck_htlaw.specs.Layout.{log_of};
ghost use Rattle.ck_htwrite.specs.State.{IsShaped, next_count};
ghost use Rattle.ck_htwrite.specs.Updates.{insert_steps, reuse_steps, move_steps, remove_steps, valued_lists, keyed_lists, inserted_lists, reused_lists, moved_lists, removed_lists};
ghost use Rattle.ck_htwrite.specs.Writes.{counters_in, opened, MayMake, Steps};

use crate::copies::put_pair;
use crate::rebuild::store_pair;
use crate::state::HtState;
use crate::writes::{bump, put_word};
use ck_epoch::{Domain, Within, Writer};
use ck_history::Key;
use ck_htlaw::HtClient;
use ck_htplan::{STATE, TOMBSTONE, high_word, low_word};
use ck_run::{Continues, Opens};

// A slot of the present region gets this pair, and so does the copy.
fn place<D: Within<HtClient>, F, O: Opens>(
    domain: &Domain<D>,
    writer: &mut Writer<D, F>,
    state: &mut HtState,
    at: u64,
    key: Key,
    value: u64,
)
    requires table { table writer.old.token ≡ domain.now }
    requires shape { IsShaped (counters_in (host D.meaning D.place D.part) domain.now.origin) state.old }
    requires slot { at < 2 ^ log_of state.old.root }
    requires due { MayMake (host D.meaning D.place D.part) domain.now.origin writer.old.token (opened O.opens (insert_steps (lies (host D.meaning D.place D.part) domain.now.origin) state.old.root at key value)) }
    ensures steps { Steps (host D.meaning D.place D.part) domain.now.origin writer.old (opened O.opens (insert_steps (lies (host D.meaning D.place D.part) domain.now.origin) state.old.root at key value)) writer.new }
    ensures state { state.new ≡ keyed_lists (valued_lists state.old at value) at key }
{
    let (low, high) = (low_word(key), high_word(key));
    store_pair::<D, F, O>(domain, writer, state.root, at, low, high, value);
    put_pair(&mut state.words, at, low, high, value);
}

// A fresh key takes an empty slot. Looks stopped at it, so no counter is raised.
pub(crate) fn insert<D: Within<HtClient>, F, O: Opens>(
    domain: &Domain<D>,
    writer: &mut Writer<D, F>,
    state: &mut HtState,
    at: u64,
    key: Key,
    value: u64,
)
    requires table { table writer.old.token ≡ domain.now }
    requires shape { IsShaped (counters_in (host D.meaning D.place D.part) domain.now.origin) state.old }
    requires slot { at < 2 ^ log_of state.old.root }
    requires keys { state.old.keys < 2 ^ 32 }
    requires due { MayMake (host D.meaning D.place D.part) domain.now.origin writer.old.token (opened O.opens (insert_steps (lies (host D.meaning D.place D.part) domain.now.origin) state.old.root at key value)) }
    ensures steps { Steps (host D.meaning D.place D.part) domain.now.origin writer.old (opened O.opens (insert_steps (lies (host D.meaning D.place D.part) domain.now.origin) state.old.root at key value)) writer.new }
    ensures state { state.new ≡ inserted_lists state.old at key value }
{
    place::<D, F, O>(domain, writer, state, at, key, value);
    state.keys += 1;
}

// A fresh key takes a tombstone. A look may still hold the words of the key that stood there, so the counter is raised before they change.
pub(crate) fn reuse<D: Within<HtClient>, F, O: Opens>(
    domain: &Domain<D>,
    writer: &mut Writer<D, F>,
    state: &mut HtState,
    at: u64,
    key: Key,
    value: u64,
)
    requires table { table writer.old.token ≡ domain.now }
    requires shape { IsShaped (counters_in (host D.meaning D.place D.part) domain.now.origin) state.old }
    requires slot { at < 2 ^ log_of state.old.root }
    requires small { next_count (counters_in (host D.meaning D.place D.part) domain.now.origin) state.old < 2 ^ 62 }
    requires keys { state.old.keys < 2 ^ 32 }
    requires tombstones { 0 < state.old.tombstones }
    requires due { MayMake (host D.meaning D.place D.part) domain.now.origin writer.old.token (opened O.opens (reuse_steps (lies (host D.meaning D.place D.part) domain.now.origin) state.old.root at key value (next_count (counters_in (host D.meaning D.place D.part) domain.now.origin) state.old))) }
    ensures steps { Steps (host D.meaning D.place D.part) domain.now.origin writer.old (opened O.opens (reuse_steps (lies (host D.meaning D.place D.part) domain.now.origin) state.old.root at key value (next_count (counters_in (host D.meaning D.place D.part) domain.now.origin) state.old))) writer.new }
    ensures state { state.new ≡ reused_lists (counters_in (host D.meaning D.place D.part) domain.now.origin) state.old at key value }
{
    bump::<D, F, O>(domain, writer, state);
    place::<D, F, Continues>(domain, writer, state, at, key, value);
    state.keys += 1;
    state.tombstones -= 1;
}

// A key moves to an earlier tombstone. The second raise comes before the later copy goes: a look that passed the first place while it was a
// tombstone would find neither.
pub(crate) fn move_key<D: Within<HtClient>, F, O: Opens>(
    domain: &Domain<D>,
    writer: &mut Writer<D, F>,
    state: &mut HtState,
    to: u64,
    from: u64,
    key: Key,
    value: u64,
)
    requires table { table writer.old.token ≡ domain.now }
    requires shape { IsShaped (counters_in (host D.meaning D.place D.part) domain.now.origin) state.old }
    requires to { to < 2 ^ log_of state.old.root }
    requires from { from < 2 ^ log_of state.old.root }
    requires small { next_count (counters_in (host D.meaning D.place D.part) domain.now.origin) state.old < 2 ^ 62 }
    requires due { MayMake (host D.meaning D.place D.part) domain.now.origin writer.old.token (opened O.opens (move_steps (lies (host D.meaning D.place D.part) domain.now.origin) state.old.root to from key value (next_count (counters_in (host D.meaning D.place D.part) domain.now.origin) state.old))) }
    ensures steps { Steps (host D.meaning D.place D.part) domain.now.origin writer.old (opened O.opens (move_steps (lies (host D.meaning D.place D.part) domain.now.origin) state.old.root to from key value (next_count (counters_in (host D.meaning D.place D.part) domain.now.origin) state.old))) writer.new }
    ensures state { state.new ≡ moved_lists (counters_in (host D.meaning D.place D.part) domain.now.origin) state.old to from key value }
{
    bump::<D, F, O>(domain, writer, state);
    place::<D, F, Continues>(domain, writer, state, to, key, value);
    bump::<D, F, Continues>(domain, writer, state);
    put_word::<D, F, Continues>(domain, writer, state, from, STATE, TOMBSTONE);
}

// A key leaves its slot, which is a tombstone then: keys further on are still found past it.
pub(crate) fn delete<D: Within<HtClient>, F, O: Opens>(
    domain: &Domain<D>,
    writer: &mut Writer<D, F>,
    state: &mut HtState,
    at: u64,
)
    requires table { table writer.old.token ≡ domain.now }
    requires shape { IsShaped (counters_in (host D.meaning D.place D.part) domain.now.origin) state.old }
    requires slot { at < 2 ^ log_of state.old.root }
    requires small { next_count (counters_in (host D.meaning D.place D.part) domain.now.origin) state.old < 2 ^ 62 }
    requires keys { 0 < state.old.keys }
    requires tombstones { state.old.tombstones < 2 ^ 32 }
    requires due { MayMake (host D.meaning D.place D.part) domain.now.origin writer.old.token (opened O.opens (remove_steps (lies (host D.meaning D.place D.part) domain.now.origin) state.old.root at (next_count (counters_in (host D.meaning D.place D.part) domain.now.origin) state.old))) }
    ensures steps { Steps (host D.meaning D.place D.part) domain.now.origin writer.old (opened O.opens (remove_steps (lies (host D.meaning D.place D.part) domain.now.origin) state.old.root at (next_count (counters_in (host D.meaning D.place D.part) domain.now.origin) state.old))) writer.new }
    ensures state { state.new ≡ removed_lists (counters_in (host D.meaning D.place D.part) domain.now.origin) state.old at }
{
    put_word::<D, F, O>(domain, writer, state, at, STATE, TOMBSTONE);
    bump::<D, F, Continues>(domain, writer, state);
    state.keys -= 1;
    state.tombstones += 1;
}
