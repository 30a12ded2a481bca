//! A look, load by load.
ghost use Rattle.std.specs.Prelude.{◌≡◌, ℕ, ◌+◌, ◌<◌, ◌≤◌, ◌^◌, ◌==◌, ◌&&◌, List, Option, [], ◌∷◌, ◌++◌, length};
ghost use Rattle.ck_run.specs.declared.account.Step.TheVariants.{Load};
ghost use Rattle.ck_run.specs.Run.{entry, further};
ghost use Rattle.ck_run.specs.Tokens.{table, adding};
ghost use Rattle.ck_epoch.specs.State.{depth};
ghost use Rattle.ck_epoch.specs.Ends.{IsDomainToken};
ghost use Rattle.ck_history.specs.declared.log.Look.TheVariants.{Again};
ghost use Rattle.ck_htplan.specs.Region.{low_of, high_of};
ghost use Rattle.ck_htlaw.specs.Calls.{look as looking};
ghost use Rattle.ck_htlaw.specs.Host.{host, lies};
ghost use Rattle.ck_htlaw.specs.Known.{IsRoot, knows};
ghost use Rattle.ck_htlaw.specs.Law.{retries_of};
ghost use Rattle.ck_htlaw.specs.Layout.{log_of, counters_of, table_words};
ghost use Rattle.ck_htlaw.specs.Look.{LookState, at_version, at_state};
ghost use Rattle.ck_htread.specs.Reading.{IsDueAt, IsInLook, state_then, LookTotals, totals_after_load, totals_of, IsInState, IsBetweenLooks, IsSearch, LoadsSlot, LoadsSlots, LoadsLook, Looks, look_result, answered_by, retries_by};
ghost use Rattle.ck_htread.specs.Answered.{HasAnswered, AnswersAlone};

use crate::laws::{places_law, roots_law};
use crate::search::{Finding, Search};
use ck_epoch::{Domain, Pass, Within};
use ck_history::{Key, Look};
use ck_htlaw::{HtClient, counters};
use ck_htplan::{EMPTY, FULL, HIGH, LOW, SLOT_WORDS, STATE, VALUE, high_word, low_word};
use ck_probe::{key_code, slot};
use ck_run::{Continues, Opens};
use std::marker::Brand;

const ROOT: u64 = 0;

// Loads the table's word `at`, within a look.
#[inline]
fn load<D: Within<HtClient>>(domain: &Domain<D>, pass: &mut Pass<D>, at: u64) -> u64
    requires table { table pass.old.token ≡ domain.now }
    requires word { at < table_words (counters_of (D.part domain.now.origin.config.client)) }
    requires section { 0 < depth pass.old.token }
    requires due { (root : ℕ) × (look_state : LookState) × (totals : LookTotals) × IsInState (host D.meaning D.place D.part) domain.now.origin root look_state totals pass.old.token × IsInLook look_state × IsDueAt (lies (host D.meaning D.place D.part) domain.now.origin) root look_state ((lies (host D.meaning D.place D.part) domain.now.origin).base + at) }
    ensures step { pass.new ≡ record pass.old { token = adding pass.old.token (further (Load ((lies (host D.meaning D.place D.part) domain.now.origin).base + at) result) ∷ []) } }
    ensures at { (root : ℕ) (look_state : LookState) (totals : LookTotals) → IsInState (host D.meaning D.place D.part) domain.now.origin root look_state totals pass.old.token → IsInLook look_state
        → IsInState (host D.meaning D.place D.part) domain.now.origin root (state_then ((lies (host D.meaning D.place D.part) domain.now.origin).order root) look_state result) (totals_after_load totals look_state result) pass.new.token }
    ensures depth { depth pass.new.token ≡ depth pass.old.token }
    ensures part { IsDomainToken D.meaning pass.new.token }
{
    let client = domain.client();
    domain.read::<Continues>(pass, client.base() + at)
}

// Loads the root. `O` has the name and the argument of the call.
#[inline]
fn load_root<D: Within<HtClient>, O: Opens>(domain: &Domain<D>, pass: &mut Pass<D>, key: Key) -> u64
    requires table { table pass.old.token ≡ domain.now }
    requires section { 0 < depth pass.old.token }
    requires between { IsBetweenLooks (host D.meaning D.place D.part) domain.now.origin pass.old }
    requires name { O.opens ≡ looking ∷ key ∷ [] }
    ensures step { pass.new ≡ record pass.old { token = adding pass.old.token (entry (looking ∷ key ∷ []) (Load (lies (host D.meaning D.place D.part) domain.now.origin).base result) ∷ []) } }
    ensures root { IsRoot (counters_of (D.part domain.now.origin.config.client)) result }
    ensures at { IsInState (host D.meaning D.place D.part) domain.now.origin result (at_version key) (totals_of (knows (host D.meaning D.place D.part) domain.now.origin pass.old.token)) pass.new.token }
    ensures depth { depth pass.new.token ≡ depth pass.old.token }
    ensures part { IsDomainToken D.meaning pass.new.token }
{
    let _key = key; // only the contract reads it: it says which look this begins
    roots_law::<D>();
    domain.read::<O>(pass, domain.client().base() + ROOT)
}

// Whether these are the key's words.
#[inline]
fn is_key(key: Key, low: u64, high: u64) -> bool
    ensures { result ≡ ((low == low_of key) && (high == high_of key)) }
{
    low == low_word(key) && high == high_word(key)
}

// Loads what a look needs of the slot at step `i`.
#[inline]
fn load_slot<D: Within<HtClient>>(
    domain: &Domain<D>,
    pass: &mut Pass<D>,
    search: &Search,
    i: u64,
) -> Finding
    requires table { table pass.old.token ≡ domain.now }
    requires section { 0 < depth pass.old.token }
    requires search { IsSearch (host D.meaning D.place D.part) domain.now.origin search.now }
    requires step { i < 2 ^ log_of search.now.root }
    requires at { (totals : LookTotals) × IsInState (host D.meaning D.place D.part) domain.now.origin search.now.root (at_state search.now.key search.now.counter i) totals pass.old.token }
    ensures same { pass.new ≡ record pass.old { token = pass.new.token } }
    ensures table { table pass.new.token ≡ table pass.old.token }
    ensures slot { (totals : LookTotals) → IsInState (host D.meaning D.place D.part) domain.now.origin search.now.root (at_state search.now.key search.now.counter i) totals pass.old.token
        → LoadsSlot (host D.meaning D.place D.part) domain.now.origin search.now i totals pass.old.token result pass.new.token }
    ensures depth { depth pass.new.token ≡ depth pass.old.token }
{
    let first = search.root / 32 + SLOT_WORDS * slot(search.hash, search.root % 32, i);
    let state = load(domain, pass, first + STATE);
    if state == EMPTY {
        return Finding::Vacant;
    }
    // A tombstone's words are an old key's, or those of a key that is being put there.
    if state != FULL {
        return Finding::Other;
    }
    let low = load(domain, pass, first + LOW);
    let high = load(domain, pass, first + HIGH);
    if !is_key(search.key, low, high) {
        return Finding::Other;
    }
    let value = load(domain, pass, first + VALUE);
    Finding::Match { value }
}

// Goes through the slots in the key's order, up to one that holds the key or is empty, and gives the value.
#[inline]
fn scan_slots<D: Within<HtClient>>(
    domain: &Domain<D>,
    pass: &mut Pass<D>,
    search: &Search,
) -> Option<u64>
    requires table { table pass.old.token ≡ domain.now }
    requires section { 0 < depth pass.old.token }
    requires search { IsSearch (host D.meaning D.place D.part) domain.now.origin search.now }
    requires at { (totals : LookTotals) × IsInState (host D.meaning D.place D.part) domain.now.origin search.now.root (at_state search.now.key search.now.counter 0) totals pass.old.token }
    ensures same { pass.new ≡ record pass.old { token = pass.new.token } }
    ensures table { table pass.new.token ≡ table pass.old.token }
    ensures slots { (totals : LookTotals) → IsInState (host D.meaning D.place D.part) domain.now.origin search.now.root (at_state search.now.key search.now.counter 0) totals pass.old.token
        → LoadsSlots (host D.meaning D.place D.part) domain.now.origin search.now totals pass.old.token result pass.new.token }
    ensures depth { depth pass.new.token ≡ depth pass.old.token }
{
    for i in 0..1 << (search.root % 32) {
        match load_slot(domain, pass, search, i) {
            Finding::Vacant => return None,
            Finding::Other => (),
            Finding::Match { value } => return Some(value),
        }
    }
    None
}

// What a look loaded: its region's counter at first and at last, and the value that it found, if it found one.
#[derive(Drop)]
struct Loads {
    before: u64,
    after: u64,
    found: Option<u64>,
}

// All loads of a look.
#[inline]
fn load_look<D: Within<HtClient>>(domain: &Domain<D>, pass: &mut Pass<D>, key: Key) -> Loads
    requires table { table pass.old.token ≡ domain.now }
    requires section { 0 < depth pass.old.token }
    requires between { IsBetweenLooks (host D.meaning D.place D.part) domain.now.origin pass.old }
    ensures same { pass.new ≡ record pass.old { token = pass.new.token } }
    ensures table { table pass.new.token ≡ table pass.old.token }
    ensures loads { LoadsLook (host D.meaning D.place D.part) domain.now.origin key pass.old.token result.before result.after result.found pass.new.token }
    ensures depth { depth pass.new.token ≡ depth pass.old.token }
    ensures part { IsDomainToken D.meaning pass.new.token }
{
    ck_htlaw::table_law::<D>();
    let root = load_root::<D, Brand>(domain, pass, key);
    let client = domain.client().inner();
    let at = 1 + (root / 32 - (1 + counters(client))) / 32;
    let before = load(domain, pass, at);
    let search = Search {
        key,
        root,
        counter: before,
        hash: key_code(low_word(key), high_word(key), client.seed),
    };
    let found = scan_slots(domain, pass, &search);
    // Only where the counter stands do the slots that were loaded belong together.
    let after = load(domain, pass, at);
    Loads {
        before,
        after,
        found,
    }
}

// The answer of a look by what it found.
#[inline]
fn answer_of(found: Option<u64>) -> Look
    ensures answer { result ≡ look_result found }
    ensures looks { (key : ℕ) → answered_by key result ≡ (key, found) ∷ [] }
    ensures retries { retries_by result ≡ 0 }
{
    match found {
        Some(value) => Look::Found(value),
        None => Look::Absent,
    }
}

/// The value of the key, or that it is absent, or, where the counter of the map that it read has risen, that the look is to be made again,
/// as `ck_ht_get_spmc`, but without its loop. The pass's section is open. The clauses name the steps that it made, and the answer by what
/// they loaded. In every true run an answer is what the map gave at a moment between the load of the root and the last load, at a place as
/// `places_law` says. Where no other token steps between these two loads it always answers, and what the map gives then.
#[inline]
pub fn look<D: Within<HtClient>>(domain: &Domain<D>, pass: &mut Pass<D>, key: Key) -> Look
    requires table { table pass.old.token ≡ domain.now }
    requires section { 0 < depth pass.old.token }
    requires between { IsBetweenLooks (host D.meaning D.place D.part) domain.now.origin pass.old }
    requires calls { pass.old.calls < 2 ^ 40 }
    ensures table { table pass.new.token ≡ table pass.old.token }
    ensures steps { Looks (host D.meaning D.place D.part) domain.now.origin key pass.old.token result pass.new.token }
    ensures looks { (knows (host D.meaning D.place D.part) domain.now.origin pass.new.token).looks ≡ (knows (host D.meaning D.place D.part) domain.now.origin pass.old.token).looks ++ answered_by key result }
    ensures placed { (x : Option ℕ) → result ≡ look_result x → HasAnswered (host D.meaning D.place D.part) domain.now.origin pass.new.token (length (knows (host D.meaning D.place D.part) domain.now.origin pass.old.token).looks) key x }
    ensures retries { retries_of (knows (host D.meaning D.place D.part) domain.now.origin pass.new.token).local ≡ retries_of (knows (host D.meaning D.place D.part) domain.now.origin pass.old.token).local + retries_by result }
    ensures again { (before after : ℕ) → result ≡ Again before after → before < after }
    ensures alone { AnswersAlone (host D.meaning D.place D.part) domain.now.origin pass.old.token key result pass.new.token }
    ensures between { IsBetweenLooks (host D.meaning D.place D.part) domain.now.origin pass.new }
    ensures calls { pass.new.calls ≡ pass.old.calls + length (answered_by key result) }
    ensures depth { depth pass.new.token ≡ depth pass.old.token }
    ensures part { IsDomainToken D.meaning pass.new.token }
{
    ck_htlaw::table_law::<D>();
    places_law::<D>();
    let loads = load_look(domain, pass, key);
    if loads.before != loads.after {
        return Look::Again {
            before: loads.before,
            after: loads.after,
        };
    }
    let answers = pass.tally() + 1;
    pass.set_tally(answers);
    answer_of(loads.found)
}
