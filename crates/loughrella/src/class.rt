// A class: the chains of one buffer, each after its length, and their results in another, each of a size that the length gives.
// `class_wrong` is cause 7's test, `mark_each` runs the chains of a class that it passed.
ghost use Rattle.std.specs.Prelude.{◌≡◌, false, [], ◌++◌, ◌+◌, ◌≤◌, ◌<◌, length, drop, IfOk, IfSome, MatchOption};
ghost use Rattle.std.proofs.Math.Option.{get_or};
ghost use Rattle.numbers.specs.Big.{be2, bytes2};
ghost use Rattle.slices.specs.Parts.{part};
ghost use Rattle.model.specs.Class.{length_size, head_size, result_size, chains_in, bad_class, mark_of, mark_each_of};
ghost use Rattle.model.specs.Safe.{Usable};
ghost use Rattle.model.specs.Told.{told};
ghost use Rattle.chain.specs.Outcome.{reached_in};

use crate::host::{host_cause, run_hosted};
use model::cause::Cause;
use model::device::Device;
use model::sizes;
use numbers::be2;

// Bytes of a chain's length.
const LENGTH: usize = 2;

// Where the answers stand in a result, behind the cause and the number of them.
const ANSWERS: usize = 4;

// What the result of a chain of this length takes: room for an answer for each 8 bytes of it, rounded up.
#[tactic(auto, unfolding(model::specs::Class::result_size))]
fn result_size(len: usize) -> usize
    requires { len < 65536 }
    ensures { result ≡ result_size len }
{
    ANSWERS + (len + 7) / sizes::CCW * sizes::ANSWER
}

// The first chain of a class and what is behind it, where its length and the whole chain are there.
#[tactic(auto, unfolding(slices::specs::Parts::part))]
fn split_chain(class: &[u8]) -> Option<(&[u8], &[u8])>
    ensures cut { MatchOption result (length class.now < length_size + be2 class.now 0) (λ _. length_size + be2 class.now 0 ≤ length class.now) }
    ensures chain { IfSome result (λ p. p.0.now ≡ part class.now length_size (be2 class.now 0)) }
    ensures length { IfSome result (λ p. (length p.0.now ≡ be2 class.now 0) × (length p.0.now < 65536)) }
    ensures behind { IfSome result (λ p. p.1.now ≡ drop (length_size + be2 class.now 0) class.now) }
{
    if class.len() < LENGTH {
        return None;
    }
    class[LENGTH..].split_at_checked(be2(class, 0))
}

// Whether the lengths do not end at the buffer's end, or the results are shorter than all that room.
#[tactic(auto, using(crate::proofs::Marking::class_rules))]
pub fn class_wrong(chains: &[u8], lent: usize) -> bool
    ensures { result ≡ bad_class (chains_in chains.now) lent }
{
    let mut ahead = chains;
    let mut left = lent;
    while !ahead.is_empty() {
        let Some((chain, rest)) = split_chain(ahead) else {
            return true;
        };
        let size = result_size(chain.len());
        if left < size {
            return true;
        }
        ahead = rest;
        left -= size;
    }
    false
}

// The cause and the number of answers go to the front of a result.
fn put_head(outcome: Result<usize, Cause>, to: &mut [u8])
    requires { IfOk outcome (λ reached. reached ≤ 32) × (head_size ≤ length to.old) }
    ensures { to.new ≡ (bytes2 (told outcome) ++ bytes2 (reached_in outcome)) ++ drop head_size to.old }
{
    let (cause, reached) = match outcome {
        Ok(reached) => (0, reached as u8),
        Err(cause) => (u8::from(cause), 0),
    };
    to[..ANSWERS].copy_from_slice(&[0, cause, 0, reached]);
}

// One chain is run; `to` is its part of the results.
fn mark(
    d: Device,
    chain: &[u8],
    storage: &mut [u8],
    store: &mut [u8],
    unit: &mut [u8],
    to: &mut [u8],
)
    requires { Usable d × (head_size ≤ length to.old) }
    ensures { record { main = storage.new; store = store.new; unit = unit.new; results = to.new }
        ≡ mark_of d chain.now storage.old store.old unit.old to.old }
{
    if let Err(cause) = host_cause(d, chain, storage, store, unit, &to[ANSWERS..]) {
        put_head(Err(cause), to);
        return;
    }
    let outcome = run_hosted(d, chain, storage, store, unit, &mut to[ANSWERS..]);
    put_head(outcome, to);
}

// The chains of a class that is right are run, one after the other.
pub fn mark_each(
    d: Device,
    chains: &[u8],
    storage: &mut [u8],
    store: &mut [u8],
    unit: &mut [u8],
    results: &mut [u8],
)
    requires { Usable d × (bad_class (chains_in chains.now) (length results.old) ≡ false) }
    ensures { record { main = storage.new; store = store.new; unit = unit.new; results = results.new }
        ≡ mark_each_of d (get_or (chains_in chains.now) []) storage.old store.old unit.old results.old }
{
    let mut ahead = chains;
    // an index: of results that are split further each turn (`split_at_mut`) the check does not know what they hold at the end
    let mut used = 0;
    while let Some((chain, behind)) = split_chain(ahead) {
        let end = used + result_size(chain.len());
        mark(d, chain, storage, store, unit, &mut results[used..end]);
        ahead = behind;
        used = end;
    }
}
