//! What a file without a whole line lacks of its opening.

ghost use Rattle.std.specs.Prelude.{◌≡◌, ◌≢◌, ℕ, true, IfOk, IfErr};
ghost use Rattle.journal_file.specs.Refusing.{IsNoFront};
ghost use Rattle.journal_file.specs.Store.{HasLength, Lacks};

use crate::store::Store;
use live_command::BeginFault;

/// So many bytes of a file are compared at a time.
const PIECE: usize = 256;

// Compares the bytes of a file with an opening's line: the bytes that it lacks of it, where it has the first ones and
// nothing else.
#[tactic(auto, using(crate::proofs::Comparing::compared_none, crate::proofs::Comparing::compared_all))]
fn compare<'a, S: Store>(store: &S, opening: &'a [u8]) -> Result<&'a [u8], BeginFault>
    ensures rest { IfOk result (λ rest. Lacks (S.contents store.now) opening.now rest.now) }
    ensures other { IfErr result (λ e. e ≡ BeginFault.Other → (size : ℕ) →
        IsNoFront opening.now size (S.contents store.now)) }
    ensures why { IfErr result (λ e. e ≢ BeginFault.Memory) }
    ensures failed { IfErr result (λ e. e ≡ BeginFault.Failed → S.may_misread ≡ true) }
{
    let mut piece = [0u8; PIECE];
    let mut rest = opening;
    let mut at = 0;
    loop {
        let Ok(len) = store.read_from(at, &mut piece) else {
            return Err(BeginFault::Failed);
        };
        if len == 0 {
            return Ok(rest);
        }
        match rest.strip_prefix(&piece[..len]) {
            Some(behind) => rest = behind,
            None => return Err(BeginFault::Other),
        }
        at += len as u64;
    }
}

/// The bytes of the opening's line that a file of so many bytes lacks: it has the first ones, and nothing else. A file
/// that has none is not read.
#[tactic(auto, using(crate::proofs::Comparing::lacks_all, crate::proofs::Comparing::no_front_long))]
pub(crate) fn lacking<'a, S: Store>(
    store: &S,
    size: u64,
    opening: &'a [u8],
) -> Result<&'a [u8], BeginFault>
    ensures rest { IfOk result (λ rest. HasLength (S.contents store.now) size →
        Lacks (S.contents store.now) opening.now rest.now) }
    ensures other { IfErr result (λ e. e ≡ BeginFault.Other →
        IsNoFront opening.now size (S.contents store.now)) }
    ensures why { IfErr result (λ e. e ≢ BeginFault.Memory) }
    ensures failed { IfErr result (λ e. e ≡ BeginFault.Failed → S.may_misread ≡ true) }
{
    if size == 0 {
        return Ok(opening);
    }
    if size >= opening.len() as u64 {
        return Err(BeginFault::Other);
    }
    compare(store, opening)
}
