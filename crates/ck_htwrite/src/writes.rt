//! The writer's steps on the table's words: one function for each kind.
ghost use Rattle.std.specs.Prelude.{◌≡◌, ℕ, ◌+◌, ◌*◌, ◌<◌, ◌^◌, [], ◌∷◌};
ghost use Rattle.std.specs.Vec.{with_item};
ghost use Rattle.ck_run.specs.declared.account.Step.TheVariants.{Load, Store};
ghost use Rattle.ck_run.specs.Run.{entry};
ghost use Rattle.ck_run.specs.Tokens.{table, adding};
ghost use Rattle.ck_epoch.specs.Ends.{IsDomainToken};
ghost use Rattle.ck_htlaw.specs.Host.{host, lies};
ghost use Rattle.ck_htlaw.specs.Layout.{log_of, table_words};
ghost use Rattle.ck_htlaw.specs.Client.{answers_next};
ghost use Rattle.ck_htlaw.specs.Known.{knows};
ghost use Rattle.ck_htwrite.specs.Writes.{counters_in, MayStep, Steps};
ghost use Rattle.ck_htwrite.specs.State.{IsShaped, next_count};
ghost use Rattle.ck_htwrite.specs.Updates.{bumped_lists};

use crate::state::HtState;
use ck_epoch::{Domain, Within, Writer};
use ck_htlaw::HtClient;
use ck_htplan::SLOT_WORDS;
use ck_run::Opens;

// Stores a number in the table's word `at`. `O` has the name and the arguments of the call that this step opens, if it opens one.
pub(crate) fn store<D: Within<HtClient>, F, O: Opens>(
    domain: &Domain<D>,
    writer: &mut Writer<D, F>,
    at: u64,
    value: u64,
)
    requires table { table writer.old.token ≡ domain.now }
    requires word { at < table_words (counters_in (host D.meaning D.place D.part) domain.now.origin) }
    requires due { MayStep (host D.meaning D.place D.part) domain.now.origin writer.old.token (entry O.opens (Store ((lies (host D.meaning D.place D.part) domain.now.origin).base + at) value)) }
    ensures step { Steps (host D.meaning D.place D.part) domain.now.origin writer.old (entry O.opens (Store ((lies (host D.meaning D.place D.part) domain.now.origin).base + at) value) ∷ []) writer.new }
{
    let client = domain.client();
    domain.write::<O, F>(writer, client.base() + at, value);
}

// Loads the root. `O` has the name and the arguments of the call.
pub(crate) fn ask_root<D: Within<HtClient>, F, O: Opens>(
    domain: &Domain<D>,
    writer: &mut Writer<D, F>,
) -> u64
    requires table { table writer.old.token ≡ domain.now }
    requires due { (n : ℕ) → MayStep (host D.meaning D.place D.part) domain.now.origin writer.old.token (entry O.opens (Load (lies (host D.meaning D.place D.part) domain.now.origin).base n)) }
    ensures step { Steps (host D.meaning D.place D.part) domain.now.origin writer.old (entry O.opens (Load (lies (host D.meaning D.place D.part) domain.now.origin).base result) ∷ []) writer.new }
{
    let client = domain.client();
    domain.ask::<O, F>(writer, client.base())
}

// Stores a number in the word `j` of a slot of the present region, and in its copy.
pub(crate) fn put_word<D: Within<HtClient>, F, O: Opens>(
    domain: &Domain<D>,
    writer: &mut Writer<D, F>,
    state: &mut HtState,
    at: u64,
    j: u64,
    value: u64,
)
    requires table { table writer.old.token ≡ domain.now }
    requires slot { at < 2 ^ log_of state.old.root }
    requires word { j < 4 }
    requires shape { IsShaped (counters_in (host D.meaning D.place D.part) domain.now.origin) state.old }
    requires due { MayStep (host D.meaning D.place D.part) domain.now.origin writer.old.token (entry O.opens (Store ((lies (host D.meaning D.place D.part) domain.now.origin).word state.old.root at j) value)) }
    ensures step { Steps (host D.meaning D.place D.part) domain.now.origin writer.old (entry O.opens (Store ((lies (host D.meaning D.place D.part) domain.now.origin).word state.old.root at j) value) ∷ []) writer.new }
    ensures state { state.new ≡ record state.old { words = with_item state.old.words (4 * at + j) value } }
{
    let word = SLOT_WORDS * at + j;
    store::<D, F, O>(domain, writer, state.root / 32 + word, value);
    state.words[word as usize] = value;
}

// Raises the counter of the present region, and its copy.
pub(crate) fn bump<D: Within<HtClient>, F, O: Opens>(
    domain: &Domain<D>,
    writer: &mut Writer<D, F>,
    state: &mut HtState,
)
    requires table { table writer.old.token ≡ domain.now }
    requires shape { IsShaped (counters_in (host D.meaning D.place D.part) domain.now.origin) state.old }
    requires small { next_count (counters_in (host D.meaning D.place D.part) domain.now.origin) state.old < 2 ^ 63 }
    requires due { MayStep (host D.meaning D.place D.part) domain.now.origin writer.old.token (entry O.opens (Store ((lies (host D.meaning D.place D.part) domain.now.origin).counter state.old.root) (next_count (counters_in (host D.meaning D.place D.part) domain.now.origin) state.old))) }
    ensures step { Steps (host D.meaning D.place D.part) domain.now.origin writer.old (entry O.opens (Store ((lies (host D.meaning D.place D.part) domain.now.origin).counter state.old.root) (next_count (counters_in (host D.meaning D.place D.part) domain.now.origin) state.old)) ∷ []) writer.new }
    ensures state { state.new ≡ bumped_lists (counters_in (host D.meaning D.place D.part) domain.now.origin) state.old }
{
    let at = (state.root / 32 - 1 - state.counters.as_slice().len() as u64) / 32;
    let count = state.counters[at as usize] + 1;
    store::<D, F, O>(domain, writer, 1 + at, count);
    state.counters[at as usize] = count;
}
