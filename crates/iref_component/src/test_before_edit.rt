//! Texts that are tested before an edit takes memory.
ghost use Rattle.std.specs.{Prelude.{◌≡◌, true, Some, IfOk, IfSome, OnOk, IsNone, IsOk}, Option.{option_copied}};
ghost use Rattle.iref_grammar.specs.{InUtf8, none_or};
ghost use Rattle.iref_fault.specs.Tried.{TellsInvalid};
ghost use Rattle.iref_component.specs.{Components.{text_of}, Tries.{Tests}};

use crate::borrowed::BorrowedText;
use crate::rule::Refuses;
use iref_fault::TryError;
use iref_grammar::chars::CharSet;

/// The result of an edit by a text, where `E` returns one that is outside its rule: an edit by the
/// port `8a` is refused with `Invalid(InvalidPort("8a"))`, and `Memory` says that memory ran out.
pub type Tried<E> = Result<(), TryError<E>>;

/// The borrowed text that is in a rule: by that of ports, of `80` the port `80`. `Invalid` returns
/// one that is not, such as `8a`, in the rule's error.
pub fn read<'t, R: Refuses<&'t str>, C: CharSet>(
    text: &'t str,
) -> Result<BorrowedText<'t, R, C>, TryError<R::Error>>
    ensures ok { IfOk result (λ view. text_of view ≡ text.now) }
    ensures text { Tests (R.rule C.tests) text.entry R.refused result }
{
    match BorrowedText::new(text) {
        Ok(view) => Ok(view),
        Err(error) => Err(TryError::Invalid(error)),
    }
}

/// Whether the text, if there is one, is in a rule: in that of ports `80` is. Without a text it
/// returns `Ok`. `Invalid` returns a text that is not, such as `8a`, in the rule's error.
pub fn test<'t, R: Refuses<&'t str>, C: CharSet>(
    text: Option<&'t str>,
) -> Result<(), TryError<R::Error>>
    ensures ok { OnOk result (none_or (R.test C.tests) (option_copied text.entry) ≡ true) }
    ensures invalid { TellsInvalid (IfSome (option_copied text.entry) (InUtf8
        (R.rule C.tests))) (λ error. text.entry ≡ Some (R.refused error)) result }
    ensures none { IsNone text.entry → IsOk result }
{
    match text {
        Some(text) if !R::accepts::<C>(text) => Err(TryError::Invalid(R::refuse(text))),
        _ => Ok(()),
    }
}
