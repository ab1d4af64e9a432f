//! The text of an answer under a chain of stores.
#![tactic(auto)]

ghost use Rattle.std.specs.Prelude.{◌≡◌, ◌≤◌, IfOk, Err, length};
ghost use Rattle.akl_terms.specs.Equal.{IsConsistentBy};
ghost use Rattle.local_store.specs.Chained.{ToldBy};
ghost use Rattle.answer_text.specs.Answers.{longest_answer};
ghost use Rattle.answer_text.specs.declared.lines.AnswerError.TheVariants as variants;
ghost use Rattle.chain_text.specs.ChainTexts.{IsChainText, IsTooLongText};

use akl_terms::ShownTerm;
use answer_lines::answer_lines;
use answer_text::AnswerError;
use local_store::{Chain, take_stores};
use rational_unify::{AddedBindings, Form};
use std::alloc::Global;

/// The lines of an answer under the equations of a chain's stores: for each shown term its name,
/// ` = ` and its text, then the cyclic trees that were named.
///
/// A class of equal variables is `_` and a number, a cyclic tree `R` and a number, each by order of
/// first printing. `Long` comes exactly where the lines have more than a million bytes. What is
/// known to be solved of the chain is read as it stands, and the other stores are taken in first.
pub fn chain_answer(
    alloc: Global,
    chain: &Chain,
    shown: &[ShownTerm],
) -> Result<Vec<u8>, AnswerError>
    requires { IsConsistentBy (ToldBy chain.now.nodes chain.now.stores) }
    ensures text { IfOk result (λ text. IsChainText chain.now shown.now text.items) }
    ensures short { IfOk result (λ text. length text.items ≤ longest_answer) }
    ensures long { result ≡ Err variants.Long → IsTooLongText chain.now shown.now }
{
    let templates = chain.templates();
    let known = chain.known();
    let base = chain.outer(known);
    let mut form = Form {
        known: &base,
        added: AddedBindings::new(alloc),
    };
    match take_stores(alloc, templates, &mut form, &chain.stores()[known..])? {
        // Not where the chain is consistent.
        Some(_) => unreachable!(),
        None => answer_lines(alloc, templates, &form, shown),
    }
}
