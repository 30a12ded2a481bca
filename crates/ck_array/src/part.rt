//! The calls of an array over any domain whose client holds it.
ghost use Rattle.std.specs.Prelude.{◌≡◌, ℕ, ◌+◌, ◌<◌, ◌≤◌, List, [], ◌∷◌, ◌++◌, length, vec_capacity};
ghost use Rattle.ck_run.specs.declared.account.Step.TheVariants.{Load};
ghost use Rattle.ck_run.specs.Run.{entry};
ghost use Rattle.ck_run.specs.Tokens.{table, adding};
ghost use Rattle.ck_epoch.specs.State.{depth};
ghost use Rattle.ck_epoch.specs.Ends.{IsDomainToken};
ghost use Rattle.ck_arraylaw.specs.Calls.{all as reads_all};
ghost use Rattle.ck_arraylaw.specs.Host.{host, base_word};
ghost use Rattle.ck_arraylaw.specs.Layout.{array_words};
ghost use Rattle.ck_arraylaw.specs.Array.{ReaderState, reader, read_next, at_length};
ghost use Rattle.ck_arraylaw.specs.Layout.{region_at};
ghost use Rattle.ck_arraylaw.specs.Known.{knows};
ghost use Rattle.ck_array.specs.Reads.{resting, IsResting, IsDueAt, ReadsAll};
ghost use Rattle.ck_history.specs.declared.edit.TheConstants.{MOST_MEMBERS};

pub use crate::committing::commit;
pub use crate::writing::{add, drop_one};
use ck_arraylaw::{ARENA, ARENA_LOG, ArrayClient, ROOT};
use ck_epoch::{Domain, Pass, Within};
use ck_history::MOST_MEMBERS;
use ck_run::{Continues, Opens};
use std::marker::Brand;

// The array's last word.
const LAST: u64 = ARENA + (1 << ARENA_LOG) - 1;

// Loads the array's word `at`, within an `all`.
fn load<D: Within<ArrayClient>, O: Opens>(domain: &Domain<D>, pass: &mut Pass<D>, at: u64) -> u64
    requires table { table pass.old.token ≡ domain.now }
    requires word { at < array_words }
    requires section { 0 < depth pass.old.token }
    requires due { IsDueAt (host D.meaning D.place D.part) domain.now.origin pass.old.token O.opens at }
    ensures step { pass.new ≡ record pass.old { token = adding pass.old.token (entry O.opens (Load (base_word (host D.meaning D.place D.part) domain.now.origin + at) result) ∷ []) } }
    ensures local { (y : ReaderState) → knows (host D.meaning D.place D.part) domain.now.origin pass.old.token ≡ reader y → knows (host D.meaning D.place D.part) domain.now.origin pass.new.token ≡ reader (read_next y y.stage result) }
    ensures depth { depth pass.new.token ≡ depth pass.old.token }
    ensures part { IsDomainToken D.meaning pass.new.token }
{
    let client = domain.client();
    domain.read::<O>(pass, client.base() + at)
}

// Loads the root. `O` has the name of the call.
fn load_root<D: Within<ArrayClient>, O: Opens>(domain: &Domain<D>, pass: &mut Pass<D>) -> u64
    requires table { table pass.old.token ≡ domain.now }
    requires section { 0 < depth pass.old.token }
    requires resting { IsResting (host D.meaning D.place D.part) domain.now.origin pass.old.token }
    requires name { O.opens ≡ reads_all ∷ [] }
    ensures step { pass.new ≡ record pass.old { token = adding pass.old.token (entry (reads_all ∷ []) (Load (base_word (host D.meaning D.place D.part) domain.now.origin) result) ∷ []) } }
    ensures local { (answers : List (List ℕ)) → knows (host D.meaning D.place D.part) domain.now.origin pass.old.token ≡ reader (resting answers) → knows (host D.meaning D.place D.part) domain.now.origin pass.new.token ≡ reader (record { stage = at_length (region_at result); answers = answers }) }
    ensures depth { depth pass.new.token ≡ depth pass.old.token }
    ensures part { IsDomainToken D.meaning pass.new.token }
{
    load::<D, O>(domain, pass, ROOT)
}

/// Fills `out` with the list that was committed when this call loaded the root, and returns its length. It takes no memory, and stores
/// nothing.
pub fn all<D: Within<ArrayClient>>(
    domain: &Domain<D>,
    pass: &mut Pass<D>,
    out: &mut Vec<u64>,
) -> u64
    requires table { table pass.old.token ≡ domain.now }
    requires section { 0 < depth pass.old.token }
    requires resting { IsResting (host D.meaning D.place D.part) domain.now.origin pass.old.token }
    requires empty { out.old.items ≡ [] }
    requires room { MOST_MEMBERS ≤ vec_capacity out.old }
    ensures same { pass.new ≡ record pass.old { token = pass.new.token } }
    ensures steps { (root : ℕ) × (count : ℕ) × ReadsAll (host D.meaning D.place D.part) domain.now.origin pass.old.token pass.new.token root count out.new.items }
    ensures answers { (answers : List (List ℕ)) → knows (host D.meaning D.place D.part) domain.now.origin pass.old.token ≡ reader (resting answers) → knows (host D.meaning D.place D.part) domain.now.origin pass.new.token ≡ reader (resting (answers ++ out.new.items ∷ [])) }
    ensures length { result ≡ length out.new.items }
    ensures depth { depth pass.new.token ≡ depth pass.old.token }
    ensures part { IsDomainToken D.meaning pass.new.token }
{
    let root = load_root::<D, Brand>(domain, pass);
    // Neither bound cuts a list short, by the law of the array; with them each load is of one of its words, whatever was found.
    let at = root.min(LAST);
    let count = load::<D, Continues>(domain, pass, at);
    let most = count.min(MOST_MEMBERS).min(LAST - at);
    for i in 0..most {
        let member = load::<D, Continues>(domain, pass, at + 1 + i);
        out.push(member).unwrap();
    }
    most
}
